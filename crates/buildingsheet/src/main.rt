// Prints the sheet of the building on standard input, of which it reads the first 65,536 bytes.
#![tactic(auto)]

fn main(rt: HostRuntime) {
    let mut file = [0u8; buildingsheets::SHEET_FILE];
    let mut out = [0u8; sheets::SHEET_MAX];
    inputs::print_sheet(
        rt,
        "buildingsheet",
        &mut file,
        &mut out,
        buildingsheets::sheet,
    );
}
