ghost use Rattle.std.specs.Prelude.{◌≡◌, ◌<◌, ◌≤◌};
ghost use Rattle.escrow_script.specs.Line.{database_name};
ghost use Rattle.escrow_script.specs.Reading.{database_place};

use crate::limits::MAX_DATABASES;

/// Returns the name of the database at a place, from 0 to 15: `bank`, `bank2`, `bank3` and so on.
pub fn database_name(place: usize) -> &'static str
    requires { place < MAX_DATABASES }
    ensures { result.now ≡ database_name place }
{
    match place {
        0 => "bank",
        1 => "bank2",
        2 => "bank3",
        3 => "bank4",
        4 => "bank5",
        5 => "bank6",
        6 => "bank7",
        7 => "bank8",
        8 => "bank9",
        9 => "bank10",
        10 => "bank11",
        11 => "bank12",
        12 => "bank13",
        13 => "bank14",
        14 => "bank15",
        15 => "bank16",
        _ => unreachable!(),
    }
}

/// Returns the place of the database with a name, if there are this many databases.
pub(crate) fn database_place(databases: usize, name: &[u8]) -> Option<usize>
    requires { databases ≤ MAX_DATABASES }
    ensures { result ≡ database_place databases name.now }
{
    let mut left = databases;
    while left > 0 {
        left -= 1;
        if database_name(left).as_bytes() == name {
            return Some(left);
        }
    }
    None
}
