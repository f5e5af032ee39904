// Prints the sheet of the task graph on standard input, of which it reads at most 65,536 bytes, and one more that shows whether the text goes on.
#![tactic(auto)]

fn main(rt: HostRuntime) {
    let mut text = [0u8; graphsheets::TEXT_MAX + 1];
    let mut out = [0u8; sheets::SHEET_MAX];
    inputs::print_sheet(rt, "graphsheet", &mut text, &mut out, graphsheets::sheet);
}
