//! The demo.
use memory_runs::run;
use std::test::Fail;

// The same line comes each time.
#[test]
fn tells_of_seed_0(rt: HostRuntime) -> Result<(), Fail> {
    let want = "demo 0 frames 65 vertices 1027884 triangles 2039662 pieces 9148 bytes 57004429\n";
    for _ in 0..2u8 {
        let left = run(&rt, &["demo", "0"], &[])?;
        assert_eq!(rt; left.status, 0);
        assert_eq!(rt; left.log(), want.as_bytes());
        assert!(rt; left.file("o").is_none());
    }
    Ok(())
}
