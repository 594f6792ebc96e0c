// Arrays to read formcheck's files into, each as long as what decides the line.
#![tactic(auto)]

ghost use Rattle.std.specs.Prelude.{◌≡◌, replicate};
ghost use Rattle.verdict_sizes.specs.Sizes.{names_bytes, sheet_bytes, form_bytes};

// The bytes that are read of each file. They decide the line, however long the file is (`whole` in proofs/Whole.antt): a name list
// that passes has at most 1,600 bytes, a sheet 65,536 and a form 65,535.
const NAMES_BYTES: usize = 4096;

const SHEET_BYTES: usize = 65540;

const FORM_BYTES: usize = 65536;

// An array for each file.
#[derive(Drop)]
pub struct Buffers {
    pub names: [u8; NAMES_BYTES],
    pub sheet: [u8; SHEET_BYTES],
    pub form: [u8; FORM_BYTES],
}

impl Buffers {
    pub fn new() -> Buffers
        ensures names { result.names ≡ replicate names_bytes 0 }
        ensures sheet { result.sheet ≡ replicate sheet_bytes 0 }
        ensures form { result.form ≡ replicate form_bytes 0 }
    {
        Buffers {
            names: [0; NAMES_BYTES],
            sheet: [0; SHEET_BYTES],
            form: [0; FORM_BYTES],
        }
    }
}
