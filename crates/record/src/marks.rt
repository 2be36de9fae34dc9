// What the presence mask marks as there.
ghost use Rattle.std.specs.Prelude.{◌≡◌};
ghost use Rattle.record.specs.Contents.{marks};

// A field that may be absent.
#[derive(Clone, Copy)]
pub enum Field {
    File,
    Line,
    Module,
    Serial,
}

// Whether the mask marks the field: "presence mask (1 file, 2 line, 4 module)"; "Presence mask 8 marks it", the serial.
pub fn marks(mask: usize, field: Field) -> bool
    ensures { result ≡ marks mask field }
{
    let bit = match field {
        Field::File => 1,
        Field::Line => 2,
        Field::Module => 4,
        Field::Serial => 8,
    };
    mask & bit != 0
}
