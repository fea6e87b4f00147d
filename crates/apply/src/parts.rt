ghost use Rattle.std.specs.Prelude.{◌≡◌, ◌≤◌, length};
ghost use Rattle.std.specs.List.{prefix_len};
ghost use Rattle.apply.specs.Read.{WellParted, begins_before, parts_before, parts_from};

use overlay::{PayloadMark, Sheet};

// Some of a stream's data records, side by side: the stream's bytes, and the records as a sheet
// whose payload lies in these bytes, below the size of the image afterwards.
#[derive(Clone, Copy)]
pub struct StreamParts<'s, 'r> {
    pub bytes: &'s [u8],
    pub sheet: Sheet<'r, PayloadMark>,
    pub ghost parted: { ∥ WellParted bytes.now sheet.runs.now sheet.size ∥₁ },
}

impl<'s, 'r> StreamParts<'s, 'r> {
    // How many parts at the front begin before a position.
    fn count_before(self, position: u64) -> usize
        ensures within { result ≤ length self.entry.sheet.runs.now }
        ensures count { result ≡ prefix_len (begins_before position) self.entry.sheet.runs.now }
    {
        self.sheet
            .runs
            .iter()
            .take_while(|part| part.offset < position)
            .count()
    }

    // The first parts, which begin before a position, and those from there on.
    pub(crate) fn split_before(self, position: u64) -> (StreamParts<'s, 'r>, StreamParts<'s, 'r>)
        ensures bytes { (result.0.bytes.now ≡ self.entry.bytes.now)
            × (result.1.bytes.now ≡ self.entry.bytes.now) }
        ensures size { (result.0.sheet.size ≡ self.entry.sheet.size)
            × (result.1.sheet.size ≡ self.entry.sheet.size) }
        ensures front { result.0.sheet.runs.now ≡ parts_before position self.entry.sheet.runs.now }
        ensures back { result.1.sheet.runs.now ≡ parts_from position self.entry.sheet.runs.now }
    {
        let StreamParts { bytes, sheet } = self;
        let (front, back) = sheet.runs.split_at(self.count_before(position));
        let size = sheet.size;
        let before = Sheet { runs: front, size };
        let after = Sheet { runs: back, size };
        (
            StreamParts {
                bytes,
                sheet: before,
            },
            StreamParts {
                bytes,
                sheet: after,
            },
        )
    }
}
