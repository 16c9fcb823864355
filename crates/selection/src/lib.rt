// One step on a feed record, from 01, 'Feed and program': searcher and reader by value, the detector's old words and those of `filter` lent.
#![tactic(auto)]

ghost use Rattle.std.specs.Prelude.{◌≡◌};
ghost use Rattle.feed.specs.Records.{kind_number};
ghost use Rattle.lag_reader.specs.Readers.{fresh_reader, reset_reader};
ghost use Rattle.pitch_search.specs.Searches.{fresh_search, reset_search};
ghost use Rattle.selection.specs.Steps.{selection_of, told_lent, of_kind, step_lent};

use feed::Kind;
use lag_reader::Reader;
use pitch::UpperLag;
use pitch_search::Search;
use refusal::Step;
use selection_answers::Answer;

// The two ends of the closed loop.
#[derive(Clone, Copy, Debug, PartialEq, Eq)]
pub struct ClosedLoop {
    pub searcher: Search,
    pub reader: Reader,
}

impl ClosedLoop {
    pub fn fresh(upper: UpperLag) -> Self
        ensures { result ≡ record { searcher = fresh_search upper; reader = fresh_reader upper } }
    {
        ClosedLoop {
            searcher: Search::fresh(upper),
            reader: Reader::fresh(upper),
        }
    }

    // Each keeps its own upper lag.
    pub fn reset(self) -> Self
        ensures { result ≡ record { searcher = reset_search self.searcher; reader = reset_reader self.reader } }
    {
        ClosedLoop {
            searcher: self.searcher.reset(),
            reader: self.reader.reset(),
        }
    }
}

// A half frame and a reset write the detector's old words, a filtering record the words beside the answer; a refusal writes neither.
#[tactic(auto, unfolding(crate::specs::Steps::step_lent))]
pub fn step_lent(
    ends: ClosedLoop,
    history_q0: &mut [i16; 143],
    words: &mut [i16; 160],
    feed: &[u8],
    at: usize,
) -> Step<Option<Answer>, ClosedLoop>
    ensures { told_lent result history_q0.new words.new ≡ step_lent (selection_of history_q0.old ends.searcher ends.reader) words.old feed.now at }
{
    match feed::header_at(feed, at) {
        Ok(Some(record)) => taken(
            ends,
            history_q0,
            words,
            record.kind,
            feed::body_at(feed, at),
        ),
        Ok(None) => Step {
            answer: Ok(None),
            after: ends,
        },
        Err(refusal) => Step::refused(refusal, ends),
    }
}

// By the kind: a reset, a half frame and a filtering record write what is lent.
#[tactic(auto, unfolding(crate::specs::Steps::of_kind, crate::specs::Steps::reset_selection, open_loop::specs::Detectors::fresh_detector))]
fn taken(
    ends: ClosedLoop,
    history_q0: &mut [i16; 143],
    words: &mut [i16; 160],
    kind: Kind,
    body: &[u8],
) -> Step<Option<Answer>, ClosedLoop>
    ensures { told_lent result history_q0.new words.new ≡ of_kind (selection_of history_q0.old ends.searcher ends.reader) words.old (kind_number kind) body.now }
{
    match kind {
        Kind::Reset => {
            *history_q0 = [0; 143];
            Step {
                answer: Ok(Some(Answer::Reset)),
                after: ends.reset(),
            }
        }
        Kind::HalfFrame => Step {
            answer: selection_records::half_frame_record(history_q0, body),
            after: ends,
        },
        Kind::Pitch => {
            let step = selection_records::pitch_record(ends.searcher, body);
            Step {
                answer: step.answer,
                after: ClosedLoop {
                    searcher: step.after,
                    ..ends
                },
            }
        }
        Kind::Pulses => Step {
            answer: selection_records::pulse_record(body),
            after: ends,
        },
        Kind::Gain => Step {
            answer: selection_records::gain_record(body),
            after: ends,
        },
        Kind::Filtering => Step {
            answer: selection_records::filtering_record(words, body),
            after: ends,
        },
        Kind::LagReading => {
            let step = selection_records::lag_record(ends.reader, body);
            Step {
                answer: step.answer,
                after: ClosedLoop {
                    reader: step.after,
                    ..ends
                },
            }
        }
    }
}
