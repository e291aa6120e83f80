// The watch over the triggers.
use ftt::master::Master;
use orders::selector::Selector;

#[test]
fn counts_the_lost_in_a_row(rt: HostRuntime) {
    let (mut master, watch) = Master::new(Selector::FixedPriority);
    let at_first = watch.lost_in_a_row();
    let watch = master.next(watch).lost();
    let watch = master.next(watch).lost();
    let after_two = watch.lost_in_a_row();
    let watch = master.next(watch).sent();
    let after_one_sent = watch.lost_in_a_row();
    assert_eq!(rt; at_first, 0);
    assert_eq!(rt; after_two, 2);
    assert_eq!(rt; after_one_sent, 0);
}

#[test]
fn stays_at_255(rt: HostRuntime) {
    let (mut master, idle) = Master::new(Selector::FixedPriority);
    let mut watch = idle;
    for _ in 0..300 {
        watch = master.next(watch).lost();
    }
    let count = watch.lost_in_a_row();
    assert_eq!(rt; count, 255);
}
