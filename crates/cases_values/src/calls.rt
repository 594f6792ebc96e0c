// The calls by their names, and what they take.
use cases_scan::Unreadable;

#[derive(Clone, Copy)]
pub enum Call {
    Names,
    Read,
    Write,
    SheetFromFile,
    Verdict,
    Tree,
    Sheet,
    Judge,
    Swap,
    Join,
}

impl<'a> TryFrom<&'a [u8]> for Call {
    type Error = Unreadable;

    fn try_from(name: &'a [u8]) -> Result<Call, Unreadable> {
        match name {
            b"names" => Ok(Call::Names),
            b"read" => Ok(Call::Read),
            b"write" => Ok(Call::Write),
            b"sheet_from_file" => Ok(Call::SheetFromFile),
            b"verdict" => Ok(Call::Verdict),
            b"tree" => Ok(Call::Tree),
            b"sheet" => Ok(Call::Sheet),
            b"judge" => Ok(Call::Judge),
            b"swap" => Ok(Call::Swap),
            b"join" => Ok(Call::Join),
            _ => Err(Unreadable),
        }
    }
}

// What the buffer holds that a call is lent.
#[derive(Clone, Copy)]
pub enum Buffer {
    Words,
    Bytes,
}

impl Call {
    // How many values the call takes.
    pub fn value_count(self) -> usize {
        match self {
            Call::Names | Call::Sheet => 1,
            Call::Tree | Call::SheetFromFile | Call::Swap => 2,
            Call::Read | Call::Judge | Call::Join | Call::Verdict => 3,
            Call::Write => 4,
        }
    }

    // The buffer that the call is lent, if it is lent one; its room is the call's last value.
    pub fn buffer(self) -> Option<Buffer> {
        match self {
            Call::Names | Call::Verdict | Call::Tree | Call::Sheet => None,
            Call::SheetFromFile | Call::Swap | Call::Read | Call::Judge | Call::Join => {
                Some(Buffer::Words)
            }
            Call::Write => Some(Buffer::Bytes),
        }
    }
}
