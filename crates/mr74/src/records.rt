// The feed: what stands at a place of it.
ghost use Rattle.std.specs.Prelude.{◌≡◌};
ghost use Rattle.feed.specs.Records.{header};
ghost use Rattle.mr74.specs.Records.{record_answer};

use crate::details::Detail;

// Stands for a kind where the feed ends.
pub(crate) const FEED_END: u8 = 7;

#[repr(C)]
#[derive(Clone, Copy, Default)]
pub struct RecordAnswer {
    pub number: u8,
    pub magnitude: u64,
    // 0 to 6, or 7 where the feed ends.
    pub kind: u8,
    // The body: its first place in the feed, and its length.
    pub from: usize,
    pub length: usize,
}

#[unsafe(no_mangle)]
pub extern "C" fn mr74_record(feed: &[u8], at: usize) -> RecordAnswer
    ensures { result ≡ record_answer at (header feed.now at) }
{
    match feed::header_at(feed, at) {
        Ok(None) => RecordAnswer {
            kind: FEED_END,
            ..Default::default()
        },
        Ok(Some(record)) => {
            let from = at + 1;
            RecordAnswer {
                kind: u8::from(record.kind),
                from,
                length: record.next - from,
                ..Default::default()
            }
        }
        Err(refusal) => RecordAnswer {
            number: refusal.number(),
            magnitude: Detail::from(refusal).magnitude,
            ..Default::default()
        },
    }
}
