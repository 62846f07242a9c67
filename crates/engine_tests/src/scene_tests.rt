//! Tests of the judge of scenes: what a run doesn't give is refused, and so is a scene with a line that says nothing.
use crate::scene::plays;

// A station with nothing in it, and a link that receives a request, which is answered without time.
const LINK: &str = r#"
    run serve --station s
    file s
    | [[link]]
    | port = 5123

    link
    hears 1 client 1000000 request
"#;

#[test]
#[should_panic]
fn another_text_is_refused(rt: HostRuntime) {
    plays(
        &rt,
        rt.alloc(),
        &["run decode\nwrites\n| status 1 usages\nstatus 1"],
    );
}

#[test]
#[should_panic]
fn a_text_without_its_last_line_is_refused(rt: HostRuntime) {
    plays(&rt, rt.alloc(), &["run decode\nwrites\nstatus 1"]);
}

#[test]
#[should_panic]
fn another_status_is_refused(rt: HostRuntime) {
    plays(&rt, rt.alloc(), &["run decode\nstatus 2"]);
}

#[test]
#[should_panic]
fn a_scene_without_a_status_is_refused(rt: HostRuntime) {
    plays(&rt, rt.alloc(), &["run decode\nwrites\n| status 1 usage"]);
}

#[test]
#[should_panic]
fn a_line_without_a_keyword_is_refused(rt: HostRuntime) {
    plays(&rt, rt.alloc(), &["run decode\nstatus 1\nwrite"]);
}

#[test]
#[should_panic]
fn a_text_that_stands_alone_is_refused(rt: HostRuntime) {
    plays(&rt, rt.alloc(), &["run decode\nstatus 1\n| status 1 usage"]);
}

#[test]
#[should_panic]
fn another_beginning_is_refused(rt: HostRuntime) {
    plays(
        &rt,
        rt.alloc(),
        &["run decode\nstatus 1\nbegins\n| tatus\\"],
    );
}

#[test]
#[should_panic]
fn another_end_is_refused(rt: HostRuntime) {
    plays(&rt, rt.alloc(), &["run decode\nstatus 1\nends\n| usage\\"]);
}

#[test]
#[should_panic]
fn a_part_that_is_not_there_is_refused(rt: HostRuntime) {
    plays(&rt, rt.alloc(), &["run decode\nstatus 1\nhas\n| 2 usage"]);
}

#[test]
#[should_panic]
fn another_line_is_refused(rt: HostRuntime) {
    plays(&rt, rt.alloc(), &["run decode\nstatus 1\nline 2 status"]);
}

#[test]
#[should_panic]
fn a_count_of_entries_is_judged(rt: HostRuntime) {
    plays(&rt, rt.alloc(), &["run decode\nstatus 1\nentries 1"]);
}

#[test]
#[should_panic]
fn a_count_of_datagrams_is_judged(rt: HostRuntime) {
    plays(&rt, rt.alloc(), &[LINK, "status 0\nsends 0 client 2"]);
}

#[test]
#[should_panic]
fn a_datagram_is_judged_to_its_end(rt: HostRuntime) {
    plays(
        &rt,
        rt.alloc(),
        &[LINK, "status 0\nsent 0 client 1 e40006ec"],
    );
}

#[test]
#[should_panic]
fn a_beginning_of_a_datagram_is_judged(rt: HostRuntime) {
    plays(
        &rt,
        rt.alloc(),
        &[LINK, "status 0\nsent 0 client 1 240006ec .."],
    );
}

#[test]
#[should_panic]
fn what_a_datagram_is_not_is_judged(rt: HostRuntime) {
    plays(
        &rt,
        rt.alloc(),
        &[LINK, "status 0\nnot 0 client 1 e40006ec .."],
    );
}

#[test]
#[should_panic]
fn events_are_judged(rt: HostRuntime) {
    plays(
        &rt,
        rt.alloc(),
        &[LINK, "status 0\nevents 0 heard sent end"],
    );
}

#[test]
#[should_panic]
fn a_gate_that_nobody_passed_is_refused(rt: HostRuntime) {
    plays(&rt, rt.alloc(), &[LINK, "status 0\npassed"]);
}

#[test]
#[should_panic]
fn a_length_is_judged(rt: HostRuntime) {
    plays(&rt, rt.alloc(), &[LINK, "status 0\nbytes 22 file s"]);
}

// What each of these is refused for is one difference from this.
#[test]
fn the_scene_itself_is_played(rt: HostRuntime) {
    let scene = r#"
        status 0
        entries 0
        sends 0 client 1
        sent 0 client 1 e40006ec ..
        not 0 client 1 240006ec ..
        events 0 heard moment sent end
        bytes 21 file s
        has
        | link 0 answered 1 \
        ends
        | status 0
    "#;
    plays(&rt, rt.alloc(), &[LINK, scene]);
    plays(
        &rt,
        rt.alloc(),
        &["run decode\nstatus 1\nline 1 status 1\nwrites\n| status 1 usage"],
    );
}
