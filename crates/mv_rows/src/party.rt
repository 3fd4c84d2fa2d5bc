//! A party of a system.

use mv_party::Site;

#[test]
fn knows_how_many_parties_there_are(rt: HostRuntime) {
    let Ok(site) = Site::new(rt.alloc(), 1, 3, 10) else {
        assert!(rt; false, "memory is refused");
        return;
    };
    assert!(rt; site.parties() == 3);
    assert!(rt; site.submissions().len() == 0);
}
