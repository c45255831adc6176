// Lists the descriptions that stand in tests/vectors/listings.in; listings.out has what an independent reading of the rules prints.
#![tactic(auto)]

ghost use Rattle.std.specs.Prelude.{◌≤◌, length, IfSome};

fn print_listing(rt: &impl Print, d: &[u8]) {
    let mut text = [0u8; 8192];
    let end = listing::write_listing(d, &mut text);
    let _ = rt.write_all(&text[..end]);
}

// One description; none at the end of the input.
fn print_next(rt: &(impl Print + Input)) -> Option<()> {
    let mut space = [0u8; 65536];
    let n = streams::read_part(rt, &mut space)?;
    print_listing(rt, &space[..n]);
    Some(())
}

fn main(rt: HostRuntime) {
    for _ in 0..streams::RECORDS {
        if print_next(&rt).is_none() {
            return;
        }
    }
}
