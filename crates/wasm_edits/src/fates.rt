// Which custom sections of a stream stay.
ghost use Rattle.std.specs.Prelude.{◌≡◌};
ghost use Rattle.wasm_edits.specs.Fates.{custom_stays, is_among as is_one_of, matches, others_stay, stays_by};

/// The choice of custom sections that stay in a stripped stream.
///
/// A custom section stays if its name matches a pattern of `kept`; or if `removed` has patterns, and the name matches
/// none of them; or if it is `name` and `names` is true. The other custom sections are removed.
///
/// A pattern that ends with `*` matches the names that begin with the bytes before the `*`: `.debug_*` matches
/// `.debug_line`, and `*` matches every name. Any other pattern matches only the name that equals it, also if it has a
/// `*` before its last byte. So each name matches itself as a pattern, but the pattern `a*` matches more than the name
/// `a*`.
///
/// ```rattle
/// // Two custom sections without data, ".debug_str" and "b".
/// let bytes = b"\0asm\x01\0\0\0\0\x0b\x0a.debug_str\0\x02\x01b";
/// let keep = Keep { names: false, kept: &[], removed: &[".debug_*"] };
/// let stripped = edit(alloc, bytes, &[Edit::Keep(keep)])?;
/// assert_eq!(rt; stripped.as_slice(), b"\0asm\x01\0\0\0\0\x02\x01b".as_slice());
/// ```
///
/// (Core specification, Binary format, Modules, Custom Section.)
#[derive(Clone, Copy)]
pub struct Keep<'a> {
    /// Whether the sections named `name` stay, which have the names of functions and other items.
    pub names: bool,
    /// The patterns of the names of sections that stay.
    pub kept: &'a [&'a str],
    /// The patterns of the names of sections that are removed. If there are any, the sections with other names stay.
    pub removed: &'a [&'a str],
}

impl Keep<'_> {
    /// Returns the choice that keeps no custom section, or, if `names` is true, only those named `name`.
    pub fn names(names: bool) -> Keep<'static>
        ensures { stays_by result ≡ custom_stays names }
    {
        Keep {
            names,
            kept: &[],
            removed: &[],
        }
    }
}

// Whether a name matches a pattern.
fn is_match(pattern: &[u8], name: &[u8]) -> bool
    ensures { result ≡ matches pattern.now name.now }
{
    match pattern {
        [prefix @ .., b'*'] => name.starts_with(prefix),
        _ => name == pattern,
    }
}

// Whether a name matches one of these patterns.
#[tactic(auto, using(std::proofs::lemmas::List::Folds::list_any_more, std::proofs::lemmas::List::Folds::list_any_at))]
fn is_among(name: &[u8], patterns: &[&str]) -> bool
    ensures { result ≡ is_one_of name.now patterns.now }
{
    for pattern in patterns {
        if is_match(pattern.as_bytes(), name) {
            return true;
        }
    }
    false
}

// Whether a custom section stays because others are to be removed.
fn is_other(name: &[u8], removed: &[&str]) -> bool
    ensures { result ≡ others_stay removed.now name.now }
{
    !removed.is_empty() && !is_among(name, removed)
}

/// Returns whether a custom section stays whose name has these bytes.
pub(crate) fn is_kept(name: &[u8], keep: Keep<'_>) -> bool
    ensures { result ≡ stays_by keep.entry name.now }
{
    is_among(name, keep.kept)
        || is_other(name, keep.removed)
        || keep.names && name == b"name".as_slice()
}

/// Returns whether a custom section with this name stays.
pub fn stays(name: &str, keep: Keep<'_>) -> bool
    // Proved: `stays` returns whether a custom section with a name stays. A pattern that ends with
    //   `*` matches the names that begin with the bytes before the `*`, and any other pattern the
    //   name that equals it [the clause of `stays` (`stays_by`, `matches`)]
    ensures { result ≡ stays_by keep.entry name.now }
{
    is_kept(name.as_bytes(), keep)
}
