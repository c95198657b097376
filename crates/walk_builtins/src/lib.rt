// The thirteen built-in names, as a table of their bytes and a table of their lengths, and the search for a name among
// them.
#![tactic(auto)]

ghost use Rattle.std.specs.Prelude.{◌≡◌, ◌<◌, MatchOption};
ghost use Rattle.std.specs.Iterator.{YieldsFirstRef, item_count};
ghost use Rattle.spec_text.specs.Bytes.{mem};
ghost use Rattle.spec_faults.specs.Builtins.{builtin_names};
ghost use Rattle.walk_builtins.specs.Table.{number_of, Rule};
ghost use Rattle.walk_builtins.specs.Cut.{names_left, IsCut};

// The names, one after the other: print, input, int, bool, str, len, range, float, assert, map, filter, set, treeset.
// Kept: bytes and lengths, in place of a list of texts: the constant table is a named form of the project.
pub const BYTES: &[u8] = b"printinputintboolstrlenrangefloatassertmapfiltersettreeset";

// The length of each.
pub const LENGTHS: &[u8] = &[5, 5, 3, 4, 3, 3, 5, 5, 6, 3, 6, 3, 7];

// The names that lengths cuts from bytes.
#[derive(Drop)]
pub struct TableNames<'a> {
    bytes: &'a [u8],
    lengths: &'a [u8],
}

impl<'a> Iterator for TableNames<'a> {
    type Item = &'a [u8];

    ghost can_next = { IsCut };

    ghost next_gives = { YieldsFirstRef names_left };

    ghost remaining = { item_count names_left };

    fn next(&mut self) -> Option<&'a [u8]> {
        let (n, lengths) = self.lengths.split_first()?;
        let (name, bytes) = self.bytes.split_at(usize::from(*n));
        self.lengths = lengths;
        self.bytes = bytes;
        Some(name)
    }
}

// The built-in names, in the table's order.
pub fn names() -> TableNames<'static>
    ensures { Rule result.lengths.now result.bytes.now }
{
    TableNames {
        bytes: BYTES,
        lengths: LENGTHS,
    }
}

// The number of a built-in name, in the table's order from 0. The walk binds the names of the table and asks for no
// number: this and `is_builtin` are the membership proved over the table that was asked for (docs/DECISIONS.md).
pub fn number_of(name: &[u8]) -> Option<usize>
    ensures { MatchOption result (number_of name.now ≡ 13) (λ k. (number_of name.now ≡ k) × (k < 13)) }
{
    names().position(|n| name == n)
}

// Whether the name is built in.
pub fn is_builtin(name: &[u8]) -> bool
    ensures { result ≡ mem name.now builtin_names }
{
    number_of(name).is_some()
}
