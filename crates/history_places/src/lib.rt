// Entries of a history's list by position.
#![tactic(auto)]

ghost use Rattle.std.specs.Prelude.{◌≡◌, ◌*◌, ◌≤◌};
ghost use Rattle.history_places.specs.Places.{Inside, position_entry, number_of, refused};

use entries::size_of;
use rules::MOST_HISTORY_ENTRIES;

// Entry e of position a.
pub fn entry_of(list: &[i64; MOST_HISTORY_ENTRIES], width: usize, a: usize, e: usize) -> i64
    requires { Inside width a × (e ≤ 2 * width) }
    ensures { result ≡ position_entry list.now width a e }
{
    list[a * (1 + 2 * width) + e]
}

// The number of position a.
pub fn number_of(list: &[i64; MOST_HISTORY_ENTRIES], width: usize, a: usize) -> u64
    requires { Inside width a }
    ensures { result ≡ number_of list.now width a }
{
    size_of(entry_of(list, width, a, 0))
}

// Whether position a is refused.
#[tactic(auto, unfolding(crate::specs::Places::refused))]
pub fn is_refused(list: &[i64; MOST_HISTORY_ENTRIES], width: usize, a: usize) -> bool
    requires { Inside width a }
    ensures { result ≡ refused list.now width a }
{
    number_of(list, width, a) != 0
}
