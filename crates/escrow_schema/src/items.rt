//! What the items of a CREATE TABLE declare.
ghost use Rattle.std.specs.Prelude.{◌≡◌, ◌++◌, IfOk, OnOk, count_by, length, map};
ghost use Rattle.std.specs.List.{list_any, flat_map};
ghost use Rattle.escrow_schema.specs.Definition.{column_of, column_texts, columns_of, is_key_mark, is_reservable_mark, keys_of, key_names, only_one, checks_in, checks_of_item, check_of_mark};

use crate::column::{Column, ColumnType};
use crate::lists::add;
use escrow_num::{Name, Seq};
use escrow_statement::{CheckText, ColumnMark, ColumnText, Item};
use std::alloc::{AllocError, Global};

/// Returns the columns that items declare, in order, or `None` if one has no valid type.
pub(crate) fn columns_of(alloc: Global, items: &[Item]) -> Result<Option<Seq<Column>>, AllocError>
    ensures { IfOk result (λ columns. columns ≡ columns_of (column_texts items.now)) }
{
    let mut columns = Vec::new(alloc);
    for item in items {
        let Item::Column(text) = item else {
            continue;
        };
        match column_of(text) {
            Some(column) => add(&mut columns, column)?,
            None => return Ok(None),
        }
    }
    Ok(Some(Seq::from_vec(columns)))
}

/// Returns the column that a text declares, or `None` if it has no valid type.
fn column_of(text: &ColumnText) -> Option<Column>
    ensures { result ≡ column_of text.now }
{
    let kind = ColumnType::from_text(&text.kind)?;
    Some(Column {
        name: text.name,
        kind,
        reservable: has_reservable_mark(text.marks.as_slice()),
    })
}

/// Returns whether one of the marks is RESERVABLE.
fn has_reservable_mark(marks: &[ColumnMark]) -> bool
    ensures { result ≡ list_any is_reservable_mark marks.now }
{
    marks
        .iter()
        .any(|mark| matches!(mark, ColumnMark::Reservable))
}

/// Returns whether a mark is PRIMARY KEY.
fn is_key_mark(mark: &ColumnMark) -> bool
    ensures { result ≡ is_key_mark mark.now }
{
    matches!(mark, ColumnMark::PrimaryKey)
}

/// Returns the name that is written as key, or `None` if there isn't exactly one.
pub(crate) fn key_name(items: &[Item]) -> Option<Name>
    ensures { result ≡ only_one (key_names items.now) }
{
    let mut key = None;
    for item in items {
        let keys = count_keys(item);
        if keys == 0 {
            continue;
        }
        if 1 < keys || key.is_some() {
            return None;
        }
        key = name_of(item);
    }
    key
}

/// Returns how many names an item writes as key.
fn count_keys(item: &Item) -> usize
    ensures { result ≡ length (keys_of item.now) }
{
    match item {
        Item::Column(text) => count_key_marks(text.marks.as_slice()),
        Item::Check(_) => 0,
        Item::PrimaryKey(_) => 1,
    }
}

/// Returns how many of the marks are PRIMARY KEY.
fn count_key_marks(marks: &[ColumnMark]) -> usize
    ensures { result ≡ count_by is_key_mark marks.now }
{
    marks.iter().filter(|mark| is_key_mark(mark)).count()
}

/// Returns the name that an item writes as key, if it writes one.
fn name_of(item: &Item) -> Option<Name>
    ensures { length (keys_of item.now) ≡ 1 → result ≡ only_one (keys_of item.now) }
{
    match item {
        Item::Column(text) => Some(text.name),
        Item::Check(_) => None,
        Item::PrimaryKey(name) => Some(*name),
    }
}

/// Returns the CHECKs of items, in order.
pub(crate) fn checks_in<'a>(
    alloc: Global,
    items: &'a [Item],
) -> Result<Vec<&'a CheckText>, AllocError>
    ensures { IfOk result (λ texts. map (λ text. text.now) texts.items ≡ checks_in items.now) }
{
    let mut texts = Vec::new(alloc);
    for item in items {
        push_checks(&mut texts, item)?;
    }
    Ok(texts)
}

/// Adds the CHECKs of an item.
fn push_checks<'a>(texts: &mut Vec<&'a CheckText>, item: &'a Item) -> Result<(), AllocError>
    ensures { OnOk result (map (λ text. text.now) texts.new.items ≡ map (λ text. text.now) texts.old.items
        ++ checks_of_item item.now) }
{
    match item {
        Item::Column(text) => push_check_marks(texts, text.marks.as_slice()),
        Item::Check(text) => add(texts, text),
        Item::PrimaryKey(_) => Ok(()),
    }
}

/// Adds the CHECKs among marks.
fn push_check_marks<'a>(
    texts: &mut Vec<&'a CheckText>,
    marks: &'a [ColumnMark],
) -> Result<(), AllocError>
    ensures { OnOk result (map (λ text. text.now) texts.new.items ≡ map (λ text. text.now) texts.old.items
        ++ flat_map check_of_mark marks.now) }
{
    for mark in marks {
        if let ColumnMark::Check(text) = mark {
            texts.push(text)?;
        }
    }
    Ok(())
}
