// What a residue is: the standard residues, categories, positions and polymer kinds, with the numbers that stand for them in lent records.
ghost use Rattle.std.specs.Prelude.{◌≡◌};
ghost use Rattle.names.specs.Packing.{packed, cell_of};
ghost use Rattle.names.specs.Residues.{residue_code, residue_of, residue_name};
ghost use Rattle.names.specs.Polymers.{is_protein, is_nucleic, polymer_of};
ghost use Rattle.names.specs.Categories.{category_code, category_name, category_of};
ghost use Rattle.names.specs.Positions.{position_code, position_name, position_of};

// The twenty amino acids, the bases of RNA and of DNA, and water.
#[derive(Clone, Copy)]
pub enum StandardResidue {
    ALA = 1,
    ARG,
    ASN,
    ASP,
    CYS,
    GLN,
    GLU,
    GLY,
    HIS,
    ILE,
    LEU,
    LYS,
    MET,
    PHE,
    PRO,
    SER,
    THR,
    TRP,
    TYR,
    VAL,
    A,
    C,
    G,
    U,
    I,
    DA,
    DC,
    DG,
    DT,
    DI,
    HOH,
}

#[derive(Clone, Copy)]
pub enum ResidueCategory {
    Standard = 1,
    Hetero,
    Ion,
}

#[derive(Clone, Copy)]
pub enum ResiduePosition {
    None,
    Internal,
    NTerminal,
    CTerminal,
    FivePrime,
    ThreePrime,
}

// What a residue is a part of.
#[derive(Clone, Copy)]
pub enum Polymer {
    Protein,
    Nucleic,
    Neither,
}

// The name of each number's residue, packed.
static SHOWN: [u64; 32] = [
    0,
    0x414c_4100_0000_0000,
    0x4152_4700_0000_0000,
    0x4153_4e00_0000_0000,
    0x4153_5000_0000_0000,
    0x4359_5300_0000_0000,
    0x474c_4e00_0000_0000,
    0x474c_5500_0000_0000,
    0x474c_5900_0000_0000,
    0x4849_5300_0000_0000,
    0x494c_4500_0000_0000,
    0x4c45_5500_0000_0000,
    0x4c59_5300_0000_0000,
    0x4d45_5400_0000_0000,
    0x5048_4500_0000_0000,
    0x5052_4f00_0000_0000,
    0x5345_5200_0000_0000,
    0x5448_5200_0000_0000,
    0x5452_5000_0000_0000,
    0x5459_5200_0000_0000,
    0x5641_4c00_0000_0000,
    0x4100_0000_0000_0000,
    0x4300_0000_0000_0000,
    0x4700_0000_0000_0000,
    0x5500_0000_0000_0000,
    0x4900_0000_0000_0000,
    0x4441_0000_0000_0000,
    0x4443_0000_0000_0000,
    0x4447_0000_0000_0000,
    0x4454_0000_0000_0000,
    0x4449_0000_0000_0000,
    0x484f_4800_0000_0000,
];

// The residues in the order of their numbers, from 1 on.
static RESIDUES: [StandardResidue; 31] = [
    StandardResidue::ALA,
    StandardResidue::ARG,
    StandardResidue::ASN,
    StandardResidue::ASP,
    StandardResidue::CYS,
    StandardResidue::GLN,
    StandardResidue::GLU,
    StandardResidue::GLY,
    StandardResidue::HIS,
    StandardResidue::ILE,
    StandardResidue::LEU,
    StandardResidue::LYS,
    StandardResidue::MET,
    StandardResidue::PHE,
    StandardResidue::PRO,
    StandardResidue::SER,
    StandardResidue::THR,
    StandardResidue::TRP,
    StandardResidue::TYR,
    StandardResidue::VAL,
    StandardResidue::A,
    StandardResidue::C,
    StandardResidue::G,
    StandardResidue::U,
    StandardResidue::I,
    StandardResidue::DA,
    StandardResidue::DC,
    StandardResidue::DG,
    StandardResidue::DT,
    StandardResidue::DI,
    StandardResidue::HOH,
];

// The categories in the order of their numbers, from 1 on.
static CATEGORIES: [ResidueCategory; 3] = [
    ResidueCategory::Standard,
    ResidueCategory::Hetero,
    ResidueCategory::Ion,
];

// The positions in the order of their numbers, from 0 on.
static POSITIONS: [ResiduePosition; 6] = [
    ResiduePosition::None,
    ResiduePosition::Internal,
    ResiduePosition::NTerminal,
    ResiduePosition::CTerminal,
    ResiduePosition::FivePrime,
    ResiduePosition::ThreePrime,
];

impl StandardResidue {
    // The number in a lent record: 1 to 31; 0 stands for no standard residue.
    pub fn code(self) -> u8
        ensures { result ≡ residue_code self }
    {
        self as u8
    }

    pub fn of_code(code: u8) -> Option<StandardResidue>
        ensures { result ≡ residue_of code }
    {
        let place = code.checked_sub(1)?;
        RESIDUES.get(place as usize).copied()
    }

    // The name that the residue is shown by, packed.
    pub fn name(self) -> u64
        ensures { result ≡ packed (residue_name self) }
    {
        let i = self.code() as usize;
        SHOWN[i]
    }

    #[tactic(auto, using(crate::proofs::ResiduesByNumber::kind_by_code, crate::proofs::ResiduesByNumber::not_protein))]
    pub fn is_protein(self) -> bool
        ensures { result ≡ is_protein self }
    {
        matches!(Polymer::of_code(self.code()), Polymer::Protein)
    }

    #[tactic(auto, using(crate::proofs::ResiduesByNumber::kind_by_code, crate::proofs::ResiduesByNumber::not_nucleic))]
    pub fn is_nucleic(self) -> bool
        ensures { result ≡ is_nucleic self }
    {
        matches!(Polymer::of_code(self.code()), Polymer::Nucleic)
    }
}

impl Polymer {
    // What the residue of a number is a part of: the amino acids come first, then the bases.
    #[tactic(auto, using(crate::proofs::ResiduesByNumber::is_protein_lem, crate::proofs::ResiduesByNumber::is_nucleic_lem, crate::proofs::ResiduesByNumber::is_neither_first, crate::proofs::ResiduesByNumber::is_neither_last))]
    pub fn of_code(code: u8) -> Polymer
        ensures { result ≡ polymer_of code }
    {
        match code {
            1..=20 => Polymer::Protein,
            21..=30 => Polymer::Nucleic,
            _ => Polymer::Neither,
        }
    }
}

impl ResidueCategory {
    // The number in a lent record: 1 to 3; 0 stands for no category.
    pub fn code(self) -> u8
        ensures { result ≡ category_code self }
    {
        self as u8
    }

    // The name that the category is shown by, zeros after it.
    #[tactic(auto, unfolding(crate::specs::Packing::cell_of))]
    pub fn name(self) -> [u8; 16]
        ensures { result ≡ cell_of 16 (category_name self) }
    {
        match self {
            ResidueCategory::Standard => *b"Standard Residue",
            ResidueCategory::Hetero => *b"Hetero Residue\0\0",
            ResidueCategory::Ion => *b"Ion\0\0\0\0\0\0\0\0\0\0\0\0\0",
        }
    }

    #[tactic(auto, unfolding(crate::specs::Categories::residue_categories, crate::specs::Categories::categories, crate::specs::Categories::category_of))]
    pub fn of_code(code: u8) -> Option<ResidueCategory>
        ensures { result ≡ category_of code }
    {
        let place = code.checked_sub(1)?;
        CATEGORIES.get(place as usize).copied()
    }
}

impl ResiduePosition {
    // The number in a lent record: 0 to 5, where 0 is the position `None`.
    pub fn code(self) -> u8
        ensures { result ≡ position_code self }
    {
        self as u8
    }

    // The name that the position is shown by, zeros after it.
    #[tactic(auto, unfolding(crate::specs::Packing::cell_of))]
    pub fn name(self) -> [u8; 16]
        ensures { result ≡ cell_of 16 (position_name self) }
    {
        match self {
            ResiduePosition::None => *b"None\0\0\0\0\0\0\0\0\0\0\0\0",
            ResiduePosition::Internal => *b"Internal\0\0\0\0\0\0\0\0",
            ResiduePosition::NTerminal => *b"N-Terminal\0\0\0\0\0\0",
            ResiduePosition::CTerminal => *b"C-Terminal\0\0\0\0\0\0",
            ResiduePosition::FivePrime => *b"5'-Terminal\0\0\0\0\0",
            ResiduePosition::ThreePrime => *b"3'-Terminal\0\0\0\0\0",
        }
    }

    #[tactic(auto, unfolding(crate::specs::Positions::residue_positions, crate::specs::Positions::positions, crate::specs::Positions::position_of))]
    pub fn of_code(code: u8) -> Option<ResiduePosition>
        ensures { result ≡ position_of code }
    {
        POSITIONS.get(code as usize).copied()
    }
}
