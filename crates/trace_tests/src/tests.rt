mod one_core;
mod records;
mod threads;

use frame_image::Watched;
use frame_words::{Fault, Geometry};
use llfree_trace::{
    Answer, Gate, OpenGate, Reply, Show, answers_text, parse_trace, run_many_over, run_one,
};
use std::alloc::{AllocError, Global};
use std::process::Abort;
use std::sync::Wait;
use std::test::Fail;
use std::thread::Threads;

// What a run on threads answers.
fn answers<Rt: Threads + Wait, G: Gate>(
    rt: &Rt,
    alloc: Global,
    geometry: Geometry,
    gate: &G,
    text: &[u8],
) -> Result<Vec<u8>, Fault> {
    let mut input = Watched::new(text);
    let mut taken = Vec::new(alloc);
    {
        let mut output = Watched::new(&mut taken);
        let show = Show::Answers;
        run_many_over(rt, alloc, geometry, show, gate, &mut input, &mut output)?;
    }
    Ok(taken)
}

#[test]
fn each_reply_has_its_word(rt: HostRuntime) -> Result<(), Fail> {
    for (reply, fields) in [
        (Reply::Taken(2_097_151, 0), "Taken,2097151,0"),
        (Reply::Given(512, 9), "Given,512,9"),
        (Reply::Moved(8, 3), "Moved,8,3"),
        (Reply::Refused(Fault::BadOrder), "BadOrder,,"),
        (Reply::Refused(Fault::NoBlock), "NoBlock,,"),
        (Reply::Refused(Fault::Contended), "Contended,,"),
        (Reply::Refused(Fault::NotHeld), "NotHeld,,"),
    ] {
        let (line, core) = (1_000_000, 63);
        let answer = Answer { line, core, reply };
        let text = answers_text(rt.alloc(), &[answer], 10, 502)?;
        let want = format!(in rt.alloc(); "1000000,63,{fields}\nend,,Closed,10,502\n")?;
        assert!(rt; text.as_slice() == want.as_bytes(), "{fields}");
    }
    Ok(())
}
