// The records that we sent since the last start, by their checksums (01, "Alerts"; 02, "Alerts about an earlier record").
ghost use Rattle.std.specs.Prelude.{◌≡◌};
ghost use Rattle.connection.specs.Sent.{no_records, with_record, with_reply, matches_of};

// How many of them a clear alert may be about.
const KEPT: u32 = 8;

// The newest first, `count` of them. Every value is safe to pass in: a count over eight counts as eight.
#[derive(Clone, Copy)]
pub struct SentRecords {
    pub count: u32,
    pub checksums: [u32; 8],
}

impl SentRecords {
    // Nothing sent since the last start.
    pub fn fresh() -> SentRecords
        ensures { result ≡ no_records }
    {
        SentRecords {
            count: 0,
            checksums: [0; 8],
        }
    }

    // One record more; of nine the oldest is forgotten.
    pub fn with_record(self, checksum: u32) -> SentRecords
        ensures { result ≡ with_record self checksum }
    {
        let c = self.checksums;
        let checksums = [checksum, c[0], c[1], c[2], c[3], c[4], c[5], c[6]];
        if self.count < KEPT {
            let count = self.count + 1;
            return SentRecords { count, checksums };
        }
        SentRecords {
            count: KEPT,
            checksums,
        }
    }

    // The three records of a new reply.
    pub fn with_reply(self, hello: u32, change: u32, finished: u32) -> SentRecords
        ensures { result ≡ with_reply self hello change finished }
    {
        self.with_record(hello)
            .with_record(change)
            .with_record(finished)
    }

    // Whether one of them has this checksum.
    pub fn matches(self, checksum: u32) -> bool
        ensures { result ≡ matches_of self checksum }
    {
        let kept = self.count.min(KEPT) as usize;
        for sum in &self.checksums[..kept] {
            if *sum == checksum {
                return true;
            }
        }
        false
    }
}
