ghost use Rattle.std.specs.Prelude.{◌≡◌, ◌≤◌, ℕ, [], vec_len};
ghost use Rattle.std.specs.List.{AllByRecursion, AllZip};
ghost use Rattle.std.specs.Vec.{vec_capacity};

/// Applies a function to each value and its place, and collects the results. There must be room for
/// them.
pub fn fill<X: Drop, Y, F: Fn(u64, X) -> Y>(xs: Vec<X>, mut ys: Vec<Y>, f: F) -> Vec<Y>
    requires can { AllByRecursion (λ x. (place : ℕ) → F.pre f place x) xs.items }
    requires empty { ys.items ≡ [] }
    requires room { vec_len xs ≤ vec_capacity ys }
    ensures { AllZip (λ x y. (place : ℕ) × F.post f place x y) xs.items result.items }
{
    for x in xs {
        let place = ys.len() as u64;
        ys.push_reserved(f(place, x));
    }
    ys
}
