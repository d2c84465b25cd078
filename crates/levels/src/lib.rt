// The level of each kind of finding, by rule 7.33 of the specification: one constant table, from which every finding takes its level.
#![tactic(auto)]

ghost use Rattle.std.specs.Prelude.{◌≡◌, get_or};
ghost use Rattle.levels.specs.Levels.{levels};

// From kind 1 on.
const LEVELS: [u8; 22] = [
    1, 1, 3, 2, 2, 1, 1, 2, 2, 2, 2, 2, 1, 1, 1, 1, 1, 1, 3, 3, 1, 1,
];

// The level of a kind, which is given by its index, from 0; 0 where no kind has that index. It stays a number, since the clause speaks of any.
#[tactic(auto, unfolding(crate::specs::Levels::levels))]
pub fn level(k: usize) -> u32
    ensures { result ≡ get_or levels k 0 }
{
    if k < LEVELS.len() {
        u32::from(LEVELS[k])
    } else {
        0
    }
}
