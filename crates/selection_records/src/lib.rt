// What a record of each kind but the reset answers, from 01, 'Feed and program': its body's words through the stage, and the answer as a line.
// A body that has not the kind's length is no record: no answer, and nothing changes.
#![tactic(auto)]

ghost use Rattle.std.specs.Prelude.{List, ◌≡◌, ◌+◌, ◌*◌, ◌≤◌, ℤ, length};
ghost use Rattle.encoder_filtering.specs.Subframes.{lists, prepare};
ghost use Rattle.feed.specs.Words.{words};
ghost use Rattle.selection_answers.specs.Lines.{told_answer};
ghost use Rattle.selection_records.specs.Records.{told_with, of_filters, zeros, half_frame, pitch, pulse, gain, filtering, lag_reading};

use codebook_sharpening::SharpeningGain;
use lag_reader::Reader;
use open_loop::Detector;
use pitch_search::Search;
use refusal::{Refusal, Step};
use selection_answers::Answer;

// The detector's old words are lent and updated.
#[tactic(auto, unfolding(crate::specs::Records::half_frame))]
pub fn half_frame_record(
    history_q0: &mut [i16; 143],
    body: &[u8],
) -> Result<Option<Answer>, Refusal>
    ensures { (ws : List ℤ) → told_with result ws (record { history_q0 = history_q0.exit.now }) ≡ half_frame (record { history_q0 = history_q0.entry.now }) body.now }
{
    if body.len() != 160 {
        return Ok(None);
    }
    let samples = words_at::<80>(body, 0);
    let old = *history_q0;
    let detector = Detector { history_q0: old };
    let step = detector.push(&samples);
    let kept = step.after.history_q0;
    *history_q0 = kept;
    step.answer.map(Answer::from).map(Some)
}

#[tactic(auto, unfolding(crate::specs::Records::pitch))]
pub fn pitch_record(searcher: Search, body: &[u8]) -> Step<Option<Answer>, Search>
    ensures { (ws : List ℤ) → told_with result.answer ws result.after ≡ pitch searcher body.now }
{
    if body.len() != 551 {
        return Step {
            answer: Ok(None),
            after: searcher,
        };
    }
    let excitation = words_at::<194>(body, 1);
    let target = words_at::<40>(body, 389);
    let impulse = words_at::<40>(body, 469);
    let step = searcher.search(
        &excitation,
        &target,
        &impulse,
        body[549] as u16,
        body[550] as u16,
        body[0],
    );
    Step {
        answer: step.answer.map(Answer::from).map(Some),
        after: step.after,
    }
}

#[tactic(auto, unfolding(crate::specs::Records::pulse))]
pub fn pulse_record(body: &[u8]) -> Result<Option<Answer>, Refusal>
    ensures { (ws : List ℤ) → told_answer result ws ≡ pulse body.now }
{
    if body.len() != 163 {
        return Ok(None);
    }
    let target = words_at::<40>(body, 0);
    let impulse = words_at::<40>(body, 80);
    let mut innovation = [0i16; 40];
    let mut filtered = [0i16; 40];
    let mut sharpened = [0i16; 40];
    let found = codebook_search::search(
        &target,
        &impulse,
        body[160] as u16,
        SharpeningGain(fixed::word(body[161], body[162])),
        &mut innovation,
        &mut filtered,
        &mut sharpened,
    )?;
    Ok(Some(Answer::from(found)))
}

#[tactic(auto, unfolding(crate::specs::Records::gain))]
pub fn gain_record(body: &[u8]) -> Result<Option<Answer>, Refusal>
    ensures { (ws : List ℤ) → told_answer result ws ≡ gain body.now }
{
    if body.len() != 245 {
        return Ok(None);
    }
    let target = words_at::<40>(body, 0);
    let adaptive = words_at::<40>(body, 80);
    let filtered = words_at::<40>(body, 160);
    let quantized = gain::quantize(
        &target,
        &adaptive,
        &filtered,
        fixed::word(body[240], body[241]),
        u16::from_be_bytes([body[242], body[243]]),
        body[244],
    )?;
    Ok(Some(Answer::from(quantized)))
}

// The words of a body from a place on.
fn words_at<const N: usize>(body: &[u8], from: usize) -> [i16; N]
    requires { from + 2 * N ≤ length body.now }
    ensures { result ≡ words body.now from N }
{
    let mut list = [0i16; N];
    feed::read_words(body, from, &mut list);
    list
}

// The lent words are written where the answer is `Filter`.
#[tactic(auto, unfolding(crate::specs::Records::filtering))]
pub fn filtering_record(words: &mut [i16; 160], body: &[u8]) -> Result<Option<Answer>, Refusal>
    ensures { told_with result words.new words.new ≡ filtering words.old body.now }
{
    if body.len() != 184 {
        return Ok(None);
    }
    let speech = words_at::<50>(body, 0);
    let coefficients = words_at::<11>(body, 100);
    let quantized = words_at::<11>(body, 122);
    let errors = words_at::<10>(body, 144);
    let weighting = words_at::<10>(body, 164);
    prepared(
        words,
        &speech,
        &coefficients,
        &quantized,
        &errors,
        &weighting,
    )
}

fn prepared(
    words: &mut [i16; 160],
    speech: &[i16],
    coefficients: &[i16],
    quantized: &[i16],
    errors: &[i16],
    weighting: &[i16],
) -> Result<Option<Answer>, Refusal>
    ensures { told_with result words.new words.new ≡ of_filters words.old (prepare speech.now coefficients.now quantized.now errors.now weighting.now (lists zeros zeros zeros zeros)) }
{
    let mut residual = [0i16; 40];
    let mut impulse = [0i16; 40];
    let mut target = [0i16; 40];
    let mut error = [0i16; 40];
    encoder_filtering::prepare(
        speech,
        coefficients,
        quantized,
        errors,
        weighting,
        &mut residual,
        &mut impulse,
        &mut target,
        &mut error,
    )?;
    words.copy_from_slice([residual, impulse, target, error].as_flattened());
    Ok(Some(Answer::Filter))
}

#[tactic(auto, unfolding(crate::specs::Records::lag_reading))]
pub fn lag_record(reader: Reader, body: &[u8]) -> Step<Option<Answer>, Reader>
    ensures { (ws : List ℤ) → told_with result.answer ws result.after ≡ lag_reading reader body.now }
{
    if body.len() != 2 {
        return Step {
            answer: Ok(None),
            after: reader,
        };
    }
    let step = reader.read(body[0], body[1]);
    Step {
        answer: step.answer.map(Answer::from).map(Some),
        after: step.after,
    }
}
