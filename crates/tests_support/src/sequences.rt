//! Sequences beside each other.

/// Whether a sequence has as many items as another, and each of its items and the one of the other
/// are as is wanted, as in `all_match!(found.iter(), wanted, one, other => one == other)`. It ends
/// the function that it stands in, and is cheaper to prove than `zip` with a closure.
#[macro_export]
macro_rules! all_match {
    ($found:expr, $wanted:expr, $one:pat, $other:pat => $is:expr) => {{
        let mut found = $found;
        for $other in $wanted {
            match found.next() {
                Some($one) if $is => {}
                _ => return false,
            }
        }
        found.next().is_none()
    }};
}
