// Every kind of fault, with its place.
use bus::refusal::Refusal;
use lines::fault::Fault;
use lines::form::Form;
use lines::reader::read_form;
use std::process::Abort;

// A line and the place of its fault.
type Case = (&'static [u8], usize);

// Each line is at fault, by this refusal of the place.
fn faults<F: Fn(usize) -> Refusal + Drop>(rt: &impl Abort, refusal: F, cases: &[Case])
    requires { F.IsAlwaysCallable refusal }
{
    for (line, place) in cases {
        assert_eq!(rt; read_form(line), Err(refusal(*place)));
    }
}

#[test]
fn ends_early(rt: HostRuntime) {
    faults(
        &rt,
        |place| Refusal::BadSign { place },
        &[
            (b"", 0),
            (b"(", 1),
            (b"(next", 5),
            (b"(next 1", 7),
            (b"(next ", 6),
        ],
    );
}

#[test]
fn signs_out_of_place(rt: HostRuntime) {
    faults(
        &rt,
        |place| Refusal::BadSign { place },
        &[
            (b"next 1)", 0),
            (b"(which)x", 7),
            (b"(which) ", 7),
            (b"( add)", 1),
            (b"()", 1),
            (b"(1)", 1),
            (b"((which))", 1),
            (b"(a  b)", 3),
            (b"(a1)", 2),
            (b"(a 1b)", 4),
            (b"(a )", 3),
        ],
    );
}

#[test]
fn bytes_that_are_no_signs(rt: HostRuntime) {
    faults(
        &rt,
        |place| Refusal::BadSign { place },
        &[
            (b"(which)\r", 7),
            (b"(next 1\r)", 7),
            (b"(next\t1)", 5),
            (b"(Next 1)", 1),
            (b"(next -1)", 6),
            (&[200], 0),
            (&[b'(', b'a', 200, b')'], 2),
        ],
    );
}

#[test]
fn the_shape_goes_first(rt: HostRuntime) {
    faults(
        &rt,
        |place| Refusal::BadSign { place },
        &[(b"(foo 1", 6), (b"(window 999 )", 12)],
    );
}

#[test]
fn unknown_words(rt: HostRuntime) {
    faults(
        &rt,
        |place| Refusal::BadItem { place },
        &[
            (b"(foo)", 1),
            (b"(windows 1)", 1),
            (b"(windo 1)", 1),
            (b"(foo 01)", 1),
        ],
    );
}

#[test]
fn wrong_items(rt: HostRuntime) {
    faults(
        &rt,
        |place| Refusal::BadItem { place },
        &[
            (b"(frame x 1)", 7),
            (b"(frame 1 x)", 9),
            (b"(policy 3)", 8),
            (b"(policy foo)", 8),
            (b"(policy rmx)", 8),
            (b"(window rm)", 8),
        ],
    );
}

#[test]
fn surplus_items(rt: HostRuntime) {
    faults(
        &rt,
        |place| Refusal::BadItem { place },
        &[
            (b"(frame 2500 1 2)", 14),
            (b"(which 1)", 7),
            (b"(policy rm dm)", 11),
        ],
    );
}

#[test]
fn too_few_items(rt: HostRuntime) {
    faults(
        &rt,
        |place| Refusal::BadItem { place },
        &[
            (b"(frame 2500)", 11),
            (b"(window)", 7),
            (b"(add 0 10 3 3 0)", 15),
            // a wrong item goes first
            (b"(add 0 x 3 3 0)", 7),
        ],
    );
}

#[test]
fn items_go_before_numbers(rt: HostRuntime) {
    faults(
        &rt,
        |place| Refusal::BadItem { place },
        &[(b"(frame 99999 x)", 13), (b"(frame 01)", 9)],
    );
}

#[test]
fn numbers(rt: HostRuntime) {
    faults(
        &rt,
        |place| Refusal::BadNumber { place },
        &[
            (b"(frame 65536 8)", 7),
            (b"(frame 2500 256)", 12),
            (b"(frame 02500 1)", 7),
            (b"(frame 00 1)", 7),
            (b"(frame 0 00)", 9),
            (b"(window 256)", 8),
            (b"(window 99999999999999999999999)", 8),
            (b"(window 00000000000000000000001)", 8),
            (b"(add 0 10 3 3 0 256)", 16),
            (b"(alter 0 300 3 3 0 256)", 9),
        ],
    );
}

fn first_lines() -> Result<Form, Fault> {
    Ok(read_form(b"(next)").map_err(|refusal| (2, refusal))?)
}

#[test]
fn a_fault_keeps_its_line(rt: HostRuntime) {
    assert_eq!(rt;
        first_lines(),
        Err(Fault {
            line: 2,
            refusal: Refusal::BadItem { place: 5 },
        })
    );
}
