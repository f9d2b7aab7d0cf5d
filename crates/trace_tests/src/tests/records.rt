//! What a trace tells of itself.

use super::*;

// How many cores a trace names.
fn cores_in(alloc: Global, text: &str) -> Result<u32, Fault> {
    let trace = parse_trace(alloc, &Geometry::new(1, 64)?, text.as_bytes())?;
    Ok(trace.cores())
}

#[test]
fn a_trace_tells_its_cores(rt: HostRuntime) -> Result<(), Fail> {
    for (text, cores) in [
        ("", 0),
        (",reserve,8,4\n,round,,\n", 0),
        ("0,give,a,\n,round,,\n0,move,a,63\n", 64),
        (",round,,\n5,move,a,2\n1,give,a,\n", 6),
    ] {
        assert!(rt; cores_in(rt.alloc(), text)? == cores);
    }
    Ok(())
}

#[test]
fn a_trace_tells_its_ranges(rt: HostRuntime) -> Result<(), Fault> {
    let geometry = Geometry::new(1, 1)?;
    let text = b",reserve,8,4\n,reserve,0,4294967295\n0,take,a,0\n";
    let trace = parse_trace(rt.alloc(), &geometry, text)?;
    assert!(rt; trace.ranges() == [(8, 4), (0, 4_294_967_295)].as_slice());
    assert!(rt; matches!(run_one(rt.alloc(), geometry, &trace), Err(Fault::BadRange)));
    Ok(())
}
