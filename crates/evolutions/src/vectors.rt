// Evolutions that others published, from the On-Line Encyclopedia of Integer Sequences (OEIS), from Golly 3.3,
// and from the literature on busy beavers.
use std::fmt;

// The rows of an elementary automaton from a single 1 on. Row k is the binary number of the 2k + 1 cells around the first one.
#[derive(Clone, Copy)]
pub(crate) struct Rows {
    pub(crate) rule: u8,
    // The entry of the encyclopedia.
    pub(crate) sequence: &'static str,
    pub(crate) values: &'static [u64],
}

impl fmt::Display for Rows {
    fn fmt<W: fmt::Write>(&self, f: &mut fmt::Formatter<W>) -> fmt::Result {
        let Rows { rule, sequence, .. } = self;
        let count = self.values.len();
        write!(
            f,
            "rule {rule:3}, {count:2} rows from a single cell, OEIS {sequence}"
        )
    }
}

// A ring, and the ring that an elementary automaton reaches from it. Golly computed it with bgolly,
// the rule W and its number, on a torus one row high.
#[derive(Clone, Copy)]
pub(crate) struct Run {
    pub(crate) rule: u8,
    pub(crate) steps: usize,
    pub(crate) first: &'static str,
    pub(crate) last: &'static str,
}

impl fmt::Display for Run {
    fn fmt<W: fmt::Write>(&self, f: &mut fmt::Formatter<W>) -> fmt::Result {
        let Run { rule, steps, .. } = self;
        let cells = self.first.len();
        write!(
            f,
            "rule {rule:3}, {steps:2} steps of a ring of {cells:2} cells, Golly 3.3"
        )
    }
}

// After how many steps a machine halts, and how many ones it leaves.
#[derive(Clone, Copy, PartialEq, Eq)]
pub(crate) struct Halt {
    pub(crate) steps: usize,
    pub(crate) ones: usize,
}

impl fmt::Display for Halt {
    fn fmt<W: fmt::Write>(&self, f: &mut fmt::Formatter<W>) -> fmt::Result {
        let Halt { steps, ones } = self;
        write!(f, "{ones} ones after {steps} steps")
    }
}

// The halt of the busy beaver of two states and two symbols.
#[derive(Clone, Copy)]
pub(crate) struct Beaver {
    pub(crate) halt: Halt,
}

impl fmt::Display for Beaver {
    fn fmt<W: fmt::Write>(&self, f: &mut fmt::Formatter<W>) -> fmt::Result {
        f.write_str("busy beaver of 2 states on a circular tape, Rado and Lin")
    }
}

// T. Rado, On non-computable functions, 1962; S. Lin and T. Rado, 1965.
pub(crate) const BEAVER: Beaver = Beaver {
    halt: Halt { steps: 6, ones: 4 },
};

pub(crate) const ROWS: [Rows; 5] = [
    Rows {
        rule: 30,
        sequence: "A110240",
        values: &[1, 7, 25, 111, 401, 1783, 6409, 28479, 102849, 456263],
    },
    Rows {
        rule: 54,
        sequence: "A118108",
        values: &[1, 7, 17, 119, 273, 1911, 4369, 30583],
    },
    Rows {
        rule: 90,
        sequence: "A038183",
        values: &[1, 5, 17, 85, 257, 1285, 4369, 21845, 65537],
    },
    Rows {
        rule: 110,
        sequence: "A117999",
        values: &[1, 6, 28, 104, 496, 1568, 7360, 27520, 130304, 396800],
    },
    Rows {
        rule: 150,
        sequence: "A038184",
        values: &[1, 7, 21, 107, 273, 1911, 5189, 28123, 65793],
    },
];

pub(crate) const RUNS: [Run; 64] = [
    Run {
        rule: 0,
        steps: 12,
        first: "1010101010000011101",
        last: "0000000000000000000",
    },
    Run {
        rule: 4,
        steps: 7,
        first: "10000011111001001010101",
        last: "00000000000001001010100",
    },
    Run {
        rule: 8,
        steps: 4,
        first: "10101101111",
        last: "00000000000",
    },
    Run {
        rule: 12,
        steps: 10,
        first: "10111101000011010000101",
        last: "00100001000010010000101",
    },
    Run {
        rule: 16,
        steps: 10,
        first: "111001000010001100010111",
        last: "010000000000100100001000",
    },
    Run {
        rule: 20,
        steps: 11,
        first: "1111",
        last: "0000",
    },
    Run {
        rule: 24,
        steps: 9,
        first: "11110001001",
        last: "01000001000",
    },
    Run {
        rule: 28,
        steps: 9,
        first: "1011011000010100110111",
        last: "0010010101010110100101",
    },
    Run {
        rule: 32,
        steps: 9,
        first: "111101",
        last: "000000",
    },
    Run {
        rule: 36,
        steps: 7,
        first: "1011100100111001001",
        last: "0100000100000001000",
    },
    Run {
        rule: 40,
        steps: 4,
        first: "10010110010101101110111100111011",
        last: "00000000000011000000000000000000",
    },
    Run {
        rule: 44,
        steps: 11,
        first: "101011111111011001",
        last: "000000000000100001",
    },
    Run {
        rule: 48,
        steps: 5,
        first: "111011101011001011011",
        last: "010000010001010010010",
    },
    Run {
        rule: 52,
        steps: 10,
        first: "1111110001101010001",
        last: "0000010000000011000",
    },
    Run {
        rule: 56,
        steps: 7,
        first: "1010101101101011011100010111",
        last: "0101010110110101010101010010",
    },
    Run {
        rule: 60,
        steps: 4,
        first: "10111",
        last: "11000",
    },
    Run {
        rule: 64,
        steps: 4,
        first: "1100001101011",
        last: "0000000000000",
    },
    Run {
        rule: 68,
        steps: 8,
        first: "110101000101100001010111110001",
        last: "010101000100100001010000010000",
    },
    Run {
        rule: 72,
        steps: 5,
        first: "10011011100010000100011011111",
        last: "00011000000000000000011000000",
    },
    Run {
        rule: 76,
        steps: 8,
        first: "11111011010011001011",
        last: "00001011010011001010",
    },
    Run {
        rule: 80,
        steps: 6,
        first: "111100001010001010011111",
        last: "000000001100000010000010",
    },
    Run {
        rule: 84,
        steps: 7,
        first: "110101",
        last: "110100",
    },
    Run {
        rule: 88,
        steps: 6,
        first: "1011000010101100111000011",
        last: "0000001011000000001000111",
    },
    Run {
        rule: 92,
        steps: 5,
        first: "1000110000111",
        last: "1010101010110",
    },
    Run {
        rule: 96,
        steps: 7,
        first: "1101001001110111",
        last: "0000000000000000",
    },
    Run {
        rule: 100,
        steps: 12,
        first: "10010111111101000011010101",
        last: "10001000000001000000000000",
    },
    Run {
        rule: 104,
        steps: 8,
        first: "1101010001",
        last: "0000000000",
    },
    Run {
        rule: 108,
        steps: 8,
        first: "10100000101001101",
        last: "00100000101001000",
    },
    Run {
        rule: 112,
        steps: 6,
        first: "101000011001101001",
        last: "101001101000011001",
    },
    Run {
        rule: 116,
        steps: 4,
        first: "1101",
        last: "1100",
    },
    Run {
        rule: 120,
        steps: 11,
        first: "1011001111111110101100111",
        last: "0000011111001110100110111",
    },
    Run {
        rule: 124,
        steps: 7,
        first: "110000111100111",
        last: "100000100111001",
    },
    Run {
        rule: 128,
        steps: 9,
        first: "1101011",
        last: "0000000",
    },
    Run {
        rule: 132,
        steps: 8,
        first: "1110001",
        last: "0000000",
    },
    Run {
        rule: 136,
        steps: 6,
        first: "101",
        last: "000",
    },
    Run {
        rule: 140,
        steps: 6,
        first: "10100001011001",
        last: "00100001010001",
    },
    Run {
        rule: 144,
        steps: 8,
        first: "100101011010110111",
        last: "000000001000000000",
    },
    Run {
        rule: 148,
        steps: 4,
        first: "11010000001101110011001",
        last: "00110001000000110011000",
    },
    Run {
        rule: 152,
        steps: 9,
        first: "10001101",
        last: "01001000",
    },
    Run {
        rule: 156,
        steps: 11,
        first: "1000010100111",
        last: "0101010110101",
    },
    Run {
        rule: 160,
        steps: 10,
        first: "10001000101",
        last: "00000000000",
    },
    Run {
        rule: 164,
        steps: 6,
        first: "1011000010100111",
        last: "0000000001000000",
    },
    Run {
        rule: 168,
        steps: 10,
        first: "11101010100101011110111",
        last: "00000000000000110101010",
    },
    Run {
        rule: 172,
        steps: 12,
        first: "1000010010100010100101",
        last: "0000010010000010000100",
    },
    Run {
        rule: 176,
        steps: 5,
        first: "1001100101",
        last: "0010010001",
    },
    Run {
        rule: 180,
        steps: 11,
        first: "1111010111101010011110111",
        last: "1000101010111111101101011",
    },
    Run {
        rule: 184,
        steps: 5,
        first: "1100111",
        last: "1111010",
    },
    Run {
        rule: 188,
        steps: 5,
        first: "11101000111111001001011010011001",
        last: "11011111101111011101110111111101",
    },
    Run {
        rule: 192,
        steps: 9,
        first: "1101110000110111011001",
        last: "0000000000000000000000",
    },
    Run {
        rule: 196,
        steps: 4,
        first: "101000011111001100000110101",
        last: "101000000001000100000010100",
    },
    Run {
        rule: 200,
        steps: 10,
        first: "11101011011110110001111111",
        last: "11100011011110110001111111",
    },
    Run {
        rule: 204,
        steps: 10,
        first: "1010100001111111",
        last: "1010100001111111",
    },
    Run {
        rule: 208,
        steps: 7,
        first: "1001010001",
        last: "0010001100",
    },
    Run {
        rule: 212,
        steps: 4,
        first: "100010010001110111110101010011",
        last: "001100110011000110010100110011",
    },
    Run {
        rule: 216,
        steps: 4,
        first: "1111001110101",
        last: "1111101111101",
    },
    Run {
        rule: 220,
        steps: 9,
        first: "1111",
        last: "1111",
    },
    Run {
        rule: 224,
        steps: 4,
        first: "11011",
        last: "10111",
    },
    Run {
        rule: 228,
        steps: 6,
        first: "11110000000101100000111110001",
        last: "00010000000000100000000010000",
    },
    Run {
        rule: 232,
        steps: 9,
        first: "100001",
        last: "100001",
    },
    Run {
        rule: 236,
        steps: 5,
        first: "1110110111001101",
        last: "1111111111001111",
    },
    Run {
        rule: 240,
        steps: 4,
        first: "11111100101001101100011010010001",
        last: "00011111110010100110110001101001",
    },
    Run {
        rule: 244,
        steps: 4,
        first: "1010011111",
        last: "1111111001",
    },
    Run {
        rule: 248,
        steps: 7,
        first: "1101001110100001010010001000001",
        last: "1111111111111111010000101001011",
    },
    Run {
        rule: 252,
        steps: 10,
        first: "1110100100101010001111111010001",
        last: "1111111111111111111111111111111",
    },
];
