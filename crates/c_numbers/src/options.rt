//! The numbers of what may be missing.
ghost use Rattle.std.specs.Prelude.{◌≡◌, is_some};
ghost use Rattle.c_numbers.specs.Numbers.{or_zero, place_or_zero, flag_of};

/// A number, 0 where there is none.
pub fn or_zero(number: Option<u64>) -> u64
    ensures { result ≡ or_zero number }
{
    match number {
        None => 0,
        Some(number) => number,
    }
}

/// A place, 0 where there is none.
pub fn place_or_zero(place: Option<i64>) -> i64
    ensures { result ≡ place_or_zero place }
{
    match place {
        None => 0,
        Some(place) => place,
    }
}

/// 1 where there is something, else 0.
pub fn flag<T: Copy>(reported: Option<T>) -> u8
    ensures { result ≡ flag_of (is_some reported) }
{
    match reported {
        Some(_) => 1,
        None => 0,
    }
}
