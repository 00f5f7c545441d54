//! What must stand at a site.
ghost use Rattle.std.specs.Prelude.{◌≡◌, map, option_map, option_and_then};
ghost use Rattle.std.specs.List.{list_all};
ghost use Rattle.serde_json.specs.Find.{as_array};
ghost use Rattle.serde_json.specs.View.{items_of};
ghost use Rattle.query_json.specs.Answer.{Gives, GivesBy};
ghost use Rattle.query_json.specs.Walk.{is_printable, is_name, as_name, as_whole, as_list, as_pair, as_decimal, as_ratio, version_at, version_numbered, object_at, present, required, optional};

use crate::NAME_MAX;
use crate::fault::FileFault;
use crate::file::{Ratio, Version};
use crate::label::Label;
use crate::place::{Place, Site};
use crate::walk::decimal::decimal_of;
use crate::walk::node::Node;

fn is_printable(bytes: &[u8]) -> bool
    ensures { result ≡ list_all is_printable bytes.now }
{
    let mut printable = true;
    // It looks at all the bytes, so that many are looked at together.
    'bytes: for byte in bytes {
        printable &= (*byte >= 32) & (*byte != 127);
    }
    printable
}

/// Whether a text is a name of the format: 1 to [`NAME_MAX`] bytes without control characters.
pub fn is_name(text: &str) -> bool
    ensures { result ≡ is_name text.now }
{
    1 <= text.len() && text.len() <= NAME_MAX && is_printable(text.as_bytes())
}

// The name that a node is, if it is one.
fn as_name<'v, N: Node>(node: &'v N) -> Option<Label<'v>>
    ensures { result ≡ as_name (N.as_data node.now) }
{
    match node.text() {
        Some(text) if is_name(text) => Some(Label::of(text)),
        _ => None,
    }
}

/// A name that must be there: a string of 1 to [`NAME_MAX`] bytes without control characters. `Shape` of the place if not.
pub fn name_of<'v, N: Node>(member: Option<&'v N>, place: Place) -> Result<Label<'v>, FileFault>
    ensures { Gives result (required as_name place (option_map (λ v. N.as_data v.now) member.entry)) }
{
    let Some(node) = member else {
        return Err(FileFault::Shape(place));
    };
    match as_name(node) {
        Some(name) => Ok(name),
        None => Err(FileFault::Shape(place)),
    }
}

/// A whole number up to a limit that must be there. `Shape` of the place if not.
pub fn whole_of<N: Node>(member: Option<&N>, limit: u64, place: Place) -> Result<u64, FileFault>
    ensures { Gives result (required (as_whole limit) place (option_map (λ v. N.as_data v.now) member.entry)) }
{
    let Some(node) = member else {
        return Err(FileFault::Shape(place));
    };
    match node.whole() {
        Some(number) if number <= limit => Ok(number),
        _ => Err(FileFault::Shape(place)),
    }
}

/// Nothing where the node is an object, and else `Shape` of the place.
pub fn object_of<N: Node>(node: &N, place: Place) -> Result<(), FileFault>
    ensures { Gives result (object_at place (N.as_data node.now)) }
{
    if node.is_object() {
        Ok(())
    } else {
        Err(FileFault::Shape(place))
    }
}

/// The items of an array that must be there, and none where the member is absent or no array.
pub fn array_of<'v, N: Node>(member: Option<&'v N>) -> Option<&'v [N]>
    ensures { option_map (λ vs. items_of (map N.as_data vs.now)) result
        ≡ option_and_then as_array (option_map (λ v. N.as_data v.now) member.entry) }
{
    match member {
        Some(node) => node.items(),
        None => None,
    }
}

// A member that is null counts as absent.
fn present<'v, N: Node>(member: Option<&'v N>) -> Option<&'v N>
    ensures { option_map (λ v. N.as_data v.now) result ≡ present (option_map (λ v. N.as_data v.now) member.entry) }
{
    match member {
        Some(node) if !node.is_null() => Some(node),
        _ => None,
    }
}

/// The items of an array that may be absent or null. `Shape` of the place where it is none or has more than the limit.
#[tactic(auto, using(crate::proofs::Lists::item_count_of))]
pub fn optional_array_of<'v, N: Node>(
    member: Option<&'v N>,
    limit: usize,
    place: Place,
) -> Result<Option<&'v [N]>, FileFault>
    ensures { GivesBy (λ o. option_map (λ vs. items_of (map N.as_data vs.now)) o) result
        (optional (as_list limit) place (option_map (λ v. N.as_data v.now) member.entry)) }
{
    let Some(node) = present(member) else {
        return Ok(None);
    };
    match node.items() {
        Some(nodes) if nodes.len() <= limit => Ok(Some(nodes)),
        _ => Err(FileFault::Shape(place)),
    }
}

fn version_numbered(number: u64) -> Option<Version>
    ensures { result ≡ version_numbered number }
{
    if number == 1 {
        Some(Version::One)
    } else if number == 2 {
        Some(Version::Two)
    } else {
        None
    }
}

/// The version, which may be absent or null, and else must be 1 or 2. `Shape` of the place if not.
pub fn version_of<N: Node>(member: Option<&N>) -> Result<Version, FileFault>
    ensures { Gives result (version_at (option_map (λ v. N.as_data v.now) member.entry)) }
{
    let place = Place {
        site: Site::Version,
        i: 0,
        j: 0,
    };
    let Some(node) = present(member) else {
        return Ok(Version::One);
    };
    match node.whole().and_then(version_numbered) {
        Some(version) => Ok(version),
        None => Err(FileFault::Shape(place)),
    }
}

/// A name that may be absent or null. `Shape` of the place where there is another value.
pub fn optional_name_of<'v, N: Node>(
    member: Option<&'v N>,
    place: Place,
) -> Result<Option<Label<'v>>, FileFault>
    ensures { Gives result (optional as_name place (option_map (λ v. N.as_data v.now) member.entry)) }
{
    let Some(node) = present(member) else {
        return Ok(None);
    };
    match as_name(node) {
        Some(name) => Ok(Some(name)),
        None => Err(FileFault::Shape(place)),
    }
}

#[tactic(auto, using(crate::proofs::Lists::pair_short, crate::proofs::Lists::pair_long))]
fn pair_of<N: Node>(nodes: &[N]) -> Option<Ratio>
    ensures { result ≡ as_pair (items_of (map N.as_data nodes.now)) }
{
    match nodes {
        [first, second] => {
            let num = first.whole()?;
            let den = second.whole()?;
            Some(Ratio { num, den })
        }
        _ => None,
    }
}

// The fraction of a decimal text, which the first version doesn't have.
fn as_decimal<N: Node>(version: Version, node: &N) -> Option<Ratio>
    ensures { result ≡ as_decimal version (N.as_data node.now) }
{
    match version {
        Version::One => None,
        Version::Two => decimal_of(node.text()?),
    }
}

/// A fraction: an array of two whole numbers or, in version 2, a decimal text. None where it is neither.
pub fn as_ratio<N: Node>(version: Version, node: &N) -> Option<Ratio>
    ensures { result ≡ as_ratio version (N.as_data node.now) }
{
    match node.items() {
        Some(nodes) => pair_of(nodes),
        None => as_decimal(version, node),
    }
}

/// A fraction that may be absent or null: an array of two whole numbers or, in version 2, a decimal text. `Shape` of the
/// place where there is another value.
pub fn optional_ratio_of<N: Node>(
    version: Version,
    member: Option<&N>,
    place: Place,
) -> Result<Option<Ratio>, FileFault>
    ensures { Gives result (optional (as_ratio version) place (option_map (λ v. N.as_data v.now) member.entry)) }
{
    let Some(node) = present(member) else {
        return Ok(None);
    };
    match as_ratio(version, node) {
        Some(ratio) => Ok(Some(ratio)),
        None => Err(FileFault::Shape(place)),
    }
}
