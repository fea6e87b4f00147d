use anyhow::anyhow;
use fault::Fault;
use writer::Opened;

/// A data record of a sample: bytes at an offset, or zeros from an offset on.
pub enum Change {
    Data(u64, &'static [u8]),
    Zero { offset: u64, length: u64 },
}

/// A difference between two snapshots: their names, the image's size at the later one, and the
/// records.
pub struct Difference {
    pub from: &'static [u8],
    to: &'static [u8],
    size: u64,
    changes: &'static [Change],
}

/// From `a` to `b`, an image of 10 bytes: four bytes from 2 on, two from 6 on, and a zero at 9.
pub const SAMPLE: Difference = Difference {
    from: b"a",
    to: b"b",
    size: 10,
    changes: &[
        Change::Data(2, b"WXYZ"),
        Change::Data(6, b"12"),
        Change::Zero {
            offset: 9,
            length: 1,
        },
    ],
};

/// From `a` to `b`: the image is cut to 4 bytes.
pub const CUT: Difference = Difference {
    from: b"a",
    to: b"b",
    size: 4,
    changes: &[],
};

/// From `b` to `c`: the image grows to 10 bytes, and has `k` at 8.
pub const GROWN: Difference = Difference {
    from: b"b",
    to: b"c",
    size: 10,
    changes: &[Change::Data(8, b"k")],
};

/// A chain of four streams over an image of 768 bytes, three pages of 256.
pub const CHAIN: [Difference; 4] = [
    Difference {
        from: b"a",
        to: b"b",
        size: 768,
        changes: &[Change::Data(0, b"N"), Change::Data(512, b"k")],
    },
    // the second page is blank
    Difference {
        from: b"b",
        to: b"c",
        size: 768,
        changes: &[Change::Zero {
            offset: 256,
            length: 256,
        }],
    },
    Difference {
        from: b"c",
        to: b"d",
        size: 768,
        changes: &[Change::Data(1, b"ew")],
    },
    Difference {
        from: b"d",
        to: b"e",
        size: 768,
        changes: &[Change::Data(513, b"ey")],
    },
];

impl Difference {
    // Writes the stream of the difference and returns its length.
    fn write(&self, out: &mut [u8]) -> Result<usize, Fault> {
        let mut recording = Opened::new().names(out, self.from, self.to, self.size)?;
        for change in self.changes {
            recording = match change {
                Change::Data(offset, bytes) => recording.write(out, *offset, bytes)?,
                Change::Zero { offset, length } => recording.zero(out, *offset, *length)?,
            };
        }
        let ended = recording.end(out)?;
        Ok(ended.length())
    }

    /// The stream of the difference. A refusal is printed before it ends the tour.
    pub fn stream(&self, rt: &HostRuntime) -> anyhow::Result<Vec<u8>> {
        let mut out = vec![in rt.alloc(); 0u8; 128]?;
        let length = accepted(rt, self.write(&mut out))?;
        out.truncate(length);
        Ok(out)
    }
}

/// The value of a call of the tour. A refusal is printed before it ends the tour.
pub fn accepted<T>(rt: &HostRuntime, answer: Result<T, Fault>) -> anyhow::Result<T> {
    match answer {
        Ok(x) => Ok(x),
        Err(fault) => {
            println!(rt; "refused: {fault}")?;
            Err(anyhow!("a call of the tour was refused"))
        }
    }
}
