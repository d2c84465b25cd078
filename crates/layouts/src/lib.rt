// What a track of single density (FM) and one of double density (MFM) differ in, as numbers.
#![tactic(auto)]

ghost use Rattle.std.specs.Prelude.{◌≡◌};
ghost use Rattle.layouts.specs.Layouts.{layout_of};
ghost use Rattle.layouts.specs.PrivateContracts.{Sound};

// How a track is coded: FM or MFM.
#[derive(Clone, Copy)]
pub enum Density {
    Single,
    Double,
}

// The numbers of a density. Lengths and places are cells.
#[derive(Clone, Copy)]
pub struct Layout {
    // 1 for FM, 2 for MFM.
    pub density: u8,
    // A mark with its byte, and where in it the byte stands.
    pub mark_length: usize,
    pub byte_place: usize,
    // An ID with its mark and its check bytes, and the last distance from it at which a data mark is looked for.
    pub id_length: usize,
    pub reach: usize,
    // The check word before the mark's byte.
    pub check_start: u16,
    // The word that should stand in no ID and in no data.
    pub sync: u64,
    // How many cells and sectors are usual.
    pub fewest_cells: u32,
    pub most_cells: u32,
    pub fewest_sectors: u32,
    pub most_sectors: u32,
    // The two usual size codes.
    pub size_code: u8,
    pub other_size_code: u8,
    // How far a one may be from the next.
    pub nearest: usize,
    pub farthest: usize,
}

// The layout of a density. Its second clause follows from the first, and spares callers a proof that their sums fit.
pub fn layout_of(density: Density) -> Layout
    ensures layout { result ≡ layout_of density }
    ensures sound { Sound result }
{
    match density {
        Density::Single => Layout {
            density: 1,
            mark_length: 16,
            byte_place: 0,
            id_length: 112,
            reach: 576,
            check_start: 0xFFFF,
            sync: 0xF57E,
            fewest_cells: 48500,
            most_cells: 51500,
            fewest_sectors: 18,
            most_sectors: 18,
            size_code: 0,
            other_size_code: 0,
            nearest: 1,
            farthest: 2,
        },
        Density::Double => Layout {
            density: 2,
            mark_length: 64,
            byte_place: 48,
            id_length: 160,
            reach: 784,
            check_start: 0xCDB4,
            sync: 0x4489,
            fewest_cells: 97000,
            most_cells: 103000,
            fewest_sectors: 9,
            most_sectors: 10,
            size_code: 2,
            other_size_code: 3,
            nearest: 2,
            farthest: 4,
        },
    }
}
