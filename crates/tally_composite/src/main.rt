// Reads a composite's deck from standard input and writes the report of the one person that its receptors make, or the number, line and field
// of what stops it.
#![tactic(auto)]

fn main(rt: HostRuntime) {
    let mut input = [0u8; composite::DECK_ROOM];
    let mut buffer = [0u8; composite::MAX_REPORT];
    let read = answers::read_input(&mut rt.stdin(), &mut input);
    let told = read.map(|n| composite::report_with_room(&input, n, &mut buffer));
    answers::answer(
        &mut rt.stdout(),
        &mut rt.stderr(),
        b"tally_composite",
        told,
        &buffer,
    );
}
