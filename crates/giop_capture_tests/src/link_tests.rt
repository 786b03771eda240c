//! The link types that a notice is given of.

use giop_capture::UnreadLinks;

#[test]
fn each_link_type_is_told_once_and_sixteen_at_most(rt: HostRuntime) {
    let mut links = UnreadLinks::new();
    for link in 0..20 {
        assert!(rt; links.note_new(link) == (link < 16), "link type {link}");
        assert!(rt; !links.note_new(link), "link type {link} again");
    }
}
