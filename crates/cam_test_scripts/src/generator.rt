//! `cam_gen`: the generator against numbers and texts that two other programs gave.

use crate::check::same;
use cam_gen::{Draws, digest_text, script_of};
use std::test::Fail;

/// The first draw from seed 7.
#[test]
fn first_draw_from_seven(rt: HostRuntime) {
    let mut draws = Draws::new(7);
    let first = draws.draw();
    same(&rt, first, 2_118_330_556);
}

/// The first step from seed 7, after the five declarations.
#[test]
fn first_step_from_seven(rt: HostRuntime) -> Result<(), Fail> {
    let script = script_of(rt.alloc(), 7, 100)?;
    same(&rt, script.lines().nth(5), Some("begin A1 2"));
    Ok(())
}

/// The digest of `abc`, from FIPS 180-4's examples.
#[test]
fn digest_of_abc(rt: HostRuntime) -> Result<(), Fail> {
    let digest = digest_text(rt.alloc(), b"abc".as_slice())?;
    same(
        &rt,
        digest.as_str(),
        "ba7816bf8f01cfea414140de5dae2223b00361a396177a9cb410ff61f20015ad",
    );
    Ok(())
}

/// Whole scripts: seed, size, length in bytes and SHA-256.
const SCRIPTS: [(u64, u32, usize, &str); 4] = [
    (
        0,
        1,
        112,
        "0b9782d3ac5ee0162d1cabad12d93f09c6f8dce396aa21cb03a3f7f4882bdb69",
    ),
    (
        7,
        100,
        1322,
        "aea73478b58564e9f051386063d5ee4c814e20dded1b5b3e76cc1b84987dd599",
    ),
    (
        1,
        400,
        5467,
        "9f943f8bed057642f1a6dee3cf64855a9c143516b981d07ec9c6f79911c0b924",
    ),
    (
        u64::MAX,
        400,
        5290,
        "0efd31d5e858155882187fc79e53242f3020391211182e689affda1803600018",
    ),
];

#[test]
fn whole_scripts(rt: HostRuntime) -> Result<(), Fail> {
    for (seed, size, length, digest) in SCRIPTS {
        let script = script_of(rt.alloc(), seed, size)?;
        let found = digest_text(rt.alloc(), script.as_bytes())?;
        same(
            &rt,
            (seed, script.len(), found.as_str()),
            (seed, length, digest),
        );
    }
    Ok(())
}
