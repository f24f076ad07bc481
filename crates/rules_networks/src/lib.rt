// The rules of the readers of networks, bouquets and services (docs/RULES.md, "Entries"; EN 300 468, 5.2.1 to 5.2.3). No function: specs/ and proofs/ are all there is.
#![tactic(auto)]

// Whose sections a reader takes: networks', bouquets', services'. `None`: a number that names no reader, for which every table_id is wrong.
#[derive(Clone, Copy)]
pub enum Table {
    Nit,
    Bat,
    Sdt,
    None,
}
