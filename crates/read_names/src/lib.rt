// Numbers the names of rows: the number of a name is the earliest row that has it. New names with one hash are a chain,
// from a head through links that fall, in the work buffer.
#![tactic(auto)]

ghost use Rattle.std.specs.Prelude.{◌≡◌, ◌<◌, List, [], MatchOption};
ghost use Rattle.spec_text.specs.Bytes.{Bytes};
ghost use Rattle.work_rows.specs.Layout.{rows_most};
ghost use Rattle.work_rows.specs.SameForms.{link_number};
ghost use Rattle.read_names.specs.Names.{earliest};
ghost use Rattle.read_names.specs.ChainsModel.{row_number, Names, head_at, link_at, found, row_found, placed, name_entered, added, cleared};

use read_bytes::NamePart;
use work_rows::{HEAD_BASE, HEAD_END, NAME_BASE, ROWS_MOST, SameName};

// How many hashes there are.
const HASHES: usize = 4096;

// A head is a row and one, or 0: below this.
const HEAD_VALUES: usize = 8192;

// The first row of a hash's chain.
fn head(work: &[u32], hash: usize) -> Option<usize>
    ensures { link_number result ≡ head_at work.now hash }
{
    (work_rows::get(work, HEAD_BASE + hash % HASHES) % HEAD_VALUES).checked_sub(1)
}

// The row after row j in its chain: an earlier one.
fn link(work: &[u32], j: usize) -> Option<usize>
    ensures { link_number result ≡ link_at work.now j }
{
    match work_rows::same(work, j) {
        SameName::Row(_) => None,
        SameName::Link(next) => next.filter(|k| *k < j),
    }
}

// The earliest row that has the name, which has the hash.
#[tactic(auto, unfolding(crate::specs::ChainsModel::follow), using(crate::proofs::Turns::follow_rest))]
fn find(text: &[u8], work: &[u32], hash: usize, name: &[u8]) -> Option<usize>
    ensures { result ≡ found text.now work.now hash name.now }
{
    let mut next = head(work, hash);
    while let Some(j) = next {
        if read_fields::is_field(text, work_rows::offset(work, j), name) {
            return Some(j);
        }
        next = link(work, j);
    }
    None
}

// The earliest row that has the name. It finds what `row_found` finds in any buffer, and where the buffer holds names,
// the earliest.
#[tactic(auto, using(crate::proofs::Theorems::found_in_names))]
pub fn row_of(text: &[u8], work: &[u32], name: &[u8]) -> Option<usize>
    ensures looked_up { result ≡ row_found text.now work.now name.now }
    ensures earliest_row { (names : List Bytes) → Names text.now names work.now → (name.now ≡ [] → ⊥)
        → MatchOption result (earliest names name.now ≡ rows_most) (λ j. (earliest names name.now ≡ j) × (j < rows_most)) }
{
    find(text, work, read_fields::hash(name), name)
}

// Row i has no name: its line starts at the offset.
pub fn place(work: &mut [u32], i: usize, at: usize)
    ensures { work.new ≡ placed work.old i at }
{
    work_rows::put(work, NAME_BASE.saturating_add(i), at)
}

// Writes row i's name, where r is the earliest row that has it; what is no row counts as none.
// Kept: the test, since in a buffer that holds no names a chain may lead to a row past the last.
fn enter(work: &mut [u32], i: usize, at: usize, hash: usize, r: Option<usize>)
    ensures { work.new ≡ name_entered work.old i at hash (row_number r) }
{
    match r {
        Some(first) if first < ROWS_MOST => work_rows::put_name(work, i, at, SameName::Row(first)),
        _ => {
            let next = head(work, hash);
            work_rows::put_name(work, i, at, SameName::Link(next));
            work_rows::put(work, HEAD_BASE + hash % HASHES, i.wrapping_add(1))
        }
    }
}

// Row i has the name that stands here, with its hash.
#[tactic(auto, unfolding(crate::specs::ChainsModel::added))]
pub fn add(text: &[u8], work: &mut [u32], i: usize, name: NamePart, hash: usize)
    ensures { work.new ≡ added text.now work.old i name.offset name.len hash }
{
    let r = find(text, work, hash, name.of(text));
    enter(work, i, name.offset, hash, r)
}

// Forgets all names.
#[tactic(auto, using(crate::proofs::Turns::heads_filled))]
pub fn clear(work: &mut [u32])
    ensures { work.new ≡ cleared work.old }
{
    let end = work.len().min(HEAD_END);
    let start = end.min(HEAD_BASE);
    work[start..end].fill(0);
}
