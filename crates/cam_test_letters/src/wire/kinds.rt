// A letter of each kind with its bytes changed. What is expected is what `hunt/lib/letters.py` prints, a reader in
// another language that was written from the format's text.
use super::{NEWS, join};
use crate::check::same;
use crate::wire::changes::answer_of_bytes;
use std::alloc::Global;
use std::test::Fail;

/// What a byte is changed to.
const VALUES: [u8; 8] = [0, 1, 2, 3, 6, 8, 9, 255];

/// A body of each kind, behind the first 32 bytes of `NEWS`.
const BODIES: &[&[u8]] = &[
    // Start of 1.1.1, which depends on node 1 at count 1
    &[1, 1, 1, 0, 0, 0, 1, 0, 0, 0, 1, 1, 1, 0, 0, 0, 1],
    // Calls: Write 5, and Take of the last object
    &[
        2, 1, 1, 0, 0, 0, 1, 0, 0, 0, 1, 0, 0, 0, 1, 0, 2, 0, 0, 0, 0, 0, 0, 0, 5, 0, 0, 0, 1, 1,
        1, 0, 0, 0, 1,
    ],
    &[
        2, 1, 1, 0, 0, 0, 1, 0, 0, 0, 1, 0, 0, 0, 1, 63, 6, 0, 0, 0, 1, 0,
    ],
    // Answers: Value 258, Busy with 2.3.1/8.1.1000000000, Missed
    &[
        3, 1, 1, 0, 0, 0, 1, 0, 0, 0, 1, 0, 0, 0, 1, 2, 0, 0, 0, 0, 0, 0, 1, 2,
    ],
    &[
        3, 1, 1, 0, 0, 0, 1, 0, 0, 0, 1, 0, 0, 0, 1, 4, 2, 2, 0, 0, 0, 3, 0, 0, 0, 1, 8, 0, 0, 0,
        1, 59, 154, 202, 0,
    ],
    &[3, 1, 1, 0, 0, 0, 1, 0, 0, 0, 1, 0, 0, 0, 1, 5],
    // Finish with -1, which depends on two nodes
    &[
        4, 1, 1, 0, 0, 0, 1, 0, 0, 0, 1, 255, 255, 255, 255, 255, 255, 255, 255, 2, 1, 0, 0, 0, 1,
        8, 0, 0, 0, 2,
    ],
    // Quit, Prepare, Vote, Query, News
    &[
        5, 2, 2, 0, 0, 0, 3, 0, 0, 0, 1, 8, 0, 0, 0, 1, 59, 154, 202, 0,
    ],
    &[6, 1, 1, 0, 0, 0, 1, 0, 0, 0, 1, 0, 0, 0, 1],
    &[7, 1, 1, 0, 0, 0, 1, 0, 0, 0, 1, 0, 0, 0, 1, 1],
    &[8, 1, 1, 0, 0, 0, 1, 0, 0, 0, 1],
    &[9],
];

/// What the letter with the byte at a place changed to this is answered, as a number.
fn changed(alloc: Global, letter: &[u8], place: usize, value: u8) -> Result<u64, Fail> {
    let mut bytes = join(alloc, &[letter])?;
    if let Some(byte) = bytes.as_mut_slice().get_mut(place) {
        *byte = value;
    }
    answer_of_bytes(alloc, bytes.as_slice())
}

/// These answers, and those to the letter with each byte changed to each of `VALUES`.
fn answers_to(alloc: Global, letter: &[u8], before: u64) -> Result<u64, Fail> {
    let mut answers = before;
    for place in 0..letter.len() {
        for value in VALUES {
            let answer = changed(alloc, letter, place, value)?;
            answers = answers.wrapping_mul(1_000_003).wrapping_add(answer);
        }
    }
    Ok(answers)
}

#[test]
fn each_byte_of_each_kind_changed_is_read_or_refused(rt: HostRuntime) -> Result<(), Fail> {
    let mut answers = 0;
    for body in BODIES {
        let letter = join(rt.alloc(), &[&NEWS[..32], body])?;
        answers = answers_to(rt.alloc(), letter.as_slice(), answers)?;
    }
    same(&rt, answers, 1_235_492_040_033_856_871);
    Ok(())
}
