//! Traces of one core that are run on threads, which the program does for several cores alone.

use super::*;

// Checks what a trace of one core is answered, in a memory of so many children.
fn is_answered(
    rt: &(impl Abort + Threads + Wait),
    alloc: Global,
    children: u32,
    text: &str,
    want: &str,
) -> Result<(), Fault> {
    let geometry = Geometry::new(children, 1)?;
    let output = answers(rt, alloc, geometry, &OpenGate, text.as_bytes())?;
    assert!(rt; output.as_slice() == want.as_bytes(), "on {text}");
    Ok(())
}

// A tree is filled, and half of it given.
const HALF_GIVEN: &str =
    "0,take,a,9\n0,take,b,9\n0,take,c,9\n0,take,d,9\n0,take,e,9\n0,take,f,9\n0,take,g,9\n\
     0,take,h,9\n0,take,i,9\n0,give,a,\n0,give,b,\n0,give,c,\n0,give,d,\n";

const HALF_GIVEN_ANSWERED: &str =
    "1,0,Taken,0,9\n2,0,Taken,512,9\n3,0,Taken,1024,9\n4,0,Taken,1536,9\n5,0,Taken,2048,9\n\
     6,0,Taken,2560,9\n7,0,Taken,3072,9\n8,0,Taken,3584,9\n9,0,Taken,4096,9\n10,0,Given,0,9\n\
     11,0,Given,512,9\n12,0,Given,1024,9\n13,0,Given,1536,9\nend,,Closed,2560,5632\n";

#[test]
fn worked_traces_are_answered_on_threads(rt: HostRuntime) -> Result<(), Fail> {
    for (children, text, want) in [
        (1, "0,take,a,0", "1,0,Taken,0,0\nend,,Closed,1,511\n"),
        (
            1,
            "0,take,a,0\n0,take,b,3\n0,take,c,0\n",
            "1,0,Taken,0,0\n2,0,Taken,8,3\n3,0,Taken,1,0\nend,,Closed,10,502\n",
        ),
        (
            1,
            "0,take,a,0\n0,take,b,6\n0,take,c,7\n0,take,d,8\n0,take,e,9\n0,take,f,0\n",
            "1,0,Taken,0,0\n2,0,Taken,64,6\n3,0,Taken,128,7\n4,0,Taken,256,8\n\
             5,0,NoBlock,,\n6,0,Taken,1,0\nend,,Closed,450,62\n",
        ),
        (
            1,
            "0,take,a,9\n0,take,b,0\n0,give,a,\n0,take,b,0\n",
            "1,0,Taken,0,9\n2,0,NoBlock,,\n3,0,Given,0,9\n4,0,Taken,0,0\nend,,Closed,1,511\n",
        ),
        (
            2,
            "0,take,a,0\n0,take,b,9\n",
            "1,0,Taken,0,0\n2,0,Taken,512,9\nend,,Closed,513,511\n",
        ),
        (1, "0,take,a,10\n", "1,0,BadOrder,,\nend,,Closed,0,512\n"),
        (1, "0,take,a,255\n", "1,0,BadOrder,,\nend,,Closed,0,512\n"),
        (
            1,
            "0,take,a,1\n0,giveat,0,0\n0,giveat,0,1\n0,giveat,0,1\n0,giveat,0,10\n0,give,a,\n",
            "1,0,Taken,0,1\n2,0,NotHeld,,\n3,0,Given,0,1\n4,0,NotHeld,,\n5,0,BadOrder,,\n\
             6,0,NotHeld,,\nend,,Closed,0,512\n",
        ),
        (16, HALF_GIVEN, HALF_GIVEN_ANSWERED),
    ] {
        is_answered(&rt, rt.alloc(), children, text, want)?;
    }
    Ok(())
}

#[test]
fn a_full_child_is_given_block_by_block(rt: HostRuntime) -> Result<(), Fail> {
    let alloc = rt.alloc();
    let mut text = String::new(alloc);
    let mut want = String::new(alloc);
    for record in 1..=513u32 {
        text.push_str("0,take,a,0\n")?;
        if record <= 512 {
            write!(want, "{record},0,Taken,{},0\n", record - 1)?;
        } else {
            write!(want, "{record},0,NoBlock,,\n")?;
        }
    }
    for record in 514..=1025u32 {
        text.push_str("0,give,a,\n")?;
        write!(want, "{record},0,Given,{},0\n", record - 514)?;
    }
    text.push_str("0,take,z,9\n")?;
    want.push_str("1026,0,Taken,0,9\nend,,Closed,512,0\n")?;
    is_answered(&rt, alloc, 1, text.as_str(), want.as_str())?;
    Ok(())
}
