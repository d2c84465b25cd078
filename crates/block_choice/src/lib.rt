// What is to be listed of a track block, from the four words of a command line (rules 13.9 and 13.10).
#![tactic(auto)]

ghost use Rattle.std.specs.Prelude.{◌≡◌};
ghost use Rattle.block_choice.specs.Arguments.{argument_of, argument_seen, choice_of, choice_seen};

// What is to be listed of a block.
#[derive(Clone, Copy, Debug)]
pub struct Choice {
    pub revolutions: u8,
    pub revolution: u8,
    pub track: u8,
    pub side: u8,
}

// The choice that four words make, where the program was started with so many, its own name among them; none where they are not such numbers.
#[tactic(auto, unfolding(crate::specs::Arguments::chosen, crate::specs::Arguments::choice_of))]
pub fn choice_of(
    words: usize,
    first: &[u8],
    second: &[u8],
    third: &[u8],
    fourth: &[u8],
) -> Option<Choice>
    ensures { choice_seen result ≡ choice_of words first.now second.now third.now fourth.now }
{
    if words != 5 {
        return None;
    }
    Some(Choice {
        revolutions: argument_of(first)?,
        revolution: argument_of(second)?,
        track: argument_of(third)?,
        side: argument_of(fourth)?,
    })
}

// The number that a word of digits is, if it is one from 0 to 255. (`parse` would take a plus sign too.)
fn argument_of(word: &[u8]) -> Option<u8>
    ensures { argument_seen result ≡ argument_of word.now }
{
    if word.is_empty() {
        return None;
    }
    let mut number: u32 = 0;
    for byte in word {
        if !byte.is_ascii_digit() {
            return None;
        }
        number = 10 * number + u32::from(byte - b'0');
        if 255 < number {
            return None;
        }
    }
    Some(number as u8)
}
