//! A value that may not be there.

ghost use Rattle.goblin_pe_c_headers.specs.Found.{Puts};

/// Puts a value into its place, where there is one, and answers whether there is.
pub fn put_found<T: Copy>(place: &mut T, found: Option<T>) -> bool
    ensures { Puts (λ x. x) result found place.old place.new }
{
    match found {
        Some(value) => {
            *place = value;
            true
        }
        None => false,
    }
}
