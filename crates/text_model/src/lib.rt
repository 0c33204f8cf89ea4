// A MODEL file, line by line. docs/MODEL.md has its grammar. Places in a line count from 0.
#![tactic(auto)]

ghost use Rattle.std.specs.Prelude.{◌≡◌, ◌≤◌, length, unwrap_or};

use params::MsarParams;
use refusal::Refusal;
use spec::MsarSpec;
use text_model_line::{Fault, Kind, ModelError};
use text_words::Span;

// What was read so far: k and p where they are known, and the parameters, whose counts say what is known of them; of the
// transition table so many rows.
#[derive(Clone, Copy)]
pub struct Draft {
    pub k: Option<usize>,
    pub p: Option<usize>,
    pub rows: usize,
    pub params: MsarParams,
}

// The parameters that were read, and the spec that they have.
#[derive(Clone, Copy)]
pub struct Model {
    pub spec: MsarSpec,
    pub params: MsarParams,
}

// Nothing is known.
pub fn start() -> Draft {
    Draft {
        k: None,
        p: None,
        rows: 0,
        params: MsarParams {
            transition: [0.0; 256],
            means: [0.0; 16],
            ar: [0.0; 112],
            variances: [0.0; 16],
            means_count: 0,
            transition_count: 0,
            ar_blocks: 0,
            order: 0,
            ar_count: 0,
            variances_count: 0,
        },
    }
}

// ---- the shape

// Regimes and order for which the tables have room.
#[derive(Clone, Copy)]
struct Sizes {
    k: usize,
    p: usize,
    ghost room: { (k ≤ 16) × (p ≤ 7) },
}

// 1 to 3, before anything is kept that would not fit.
fn shaped(k: usize, p: usize) -> Result<Sizes, Refusal> {
    let spec = MsarSpec {
        k_regimes: k,
        order: p,
        switching_ar: false,
        switching_variance: false,
    };
    spec.expanded_states()?;
    Ok(Sizes { k, p })
}

// ---- lines

// A line, and its keyword.
#[derive(Clone, Copy)]
struct Line<'a> {
    text: &'a [u8],
    keyword: Span,
    ghost inside: { keyword.end ≤ length text.now },
}

impl Line<'_> {
    // The line as a whole is at fault.
    fn fault(self, fault: Fault) -> ModelError {
        ModelError::Wrong(fault, self.keyword.start)
    }

    // The one whole number behind the keyword, which stands once.
    fn size(self, known: Option<usize>) -> Result<usize, ModelError> {
        if known.is_some() {
            return Err(self.fault(Fault::Once));
        }
        let from = self.keyword.end;
        let word = text_words::word(self.text, from);
        text_model_line::size(self.text, from).ok_or(ModelError::Wrong(Fault::Size, word.start))
    }
}

impl Draft {
    // A function for each keyword, as each sets fields of its own.

    fn regimes(self, line: Line<'_>) -> Result<Draft, ModelError> {
        let k = line.size(self.k)?;
        Ok(Draft { k: Some(k), ..self })
    }

    fn order(self, line: Line<'_>) -> Result<Draft, ModelError> {
        let p = line.size(self.p)?;
        let params = MsarParams {
            order: p,
            ..self.params
        };
        Ok(Draft {
            p: Some(p),
            params,
            ..self
        })
    }

    // How many numbers a line has follows from the regimes and the order, so these come first.
    fn sizes(&self, line: Line<'_>) -> Result<Sizes, ModelError> {
        let (Some(k), Some(p)) = (self.k, self.p) else {
            return Err(line.fault(Fault::SizesFirst));
        };
        Ok(shaped(k, p)?)
    }

    fn transition(self, line: Line<'_>, sizes: Sizes) -> Result<Draft, ModelError> {
        let k = sizes.k;
        let rows = self.rows;
        if rows >= k {
            return Err(line.fault(Fault::Enough(k)));
        }
        let values = text_model_line::all_numbers(line.text, line.keyword.end, k)?;
        let params = MsarParams {
            transition: text_model_line::with_row(self.params.transition, rows, k, values),
            transition_count: text_model_line::up_to(rows, k),
            ..self.params
        };
        Ok(Draft {
            rows: rows + 1,
            params,
            ..self
        })
    }

    fn ar(self, line: Line<'_>, sizes: Sizes) -> Result<Draft, ModelError> {
        let p = sizes.p;
        let blocks = self.params.ar_blocks;
        if blocks >= sizes.k {
            return Err(line.fault(Fault::Enough(sizes.k)));
        }
        let values = text_model_line::all_numbers(line.text, line.keyword.end, p)?;
        let params = MsarParams {
            ar: text_model_line::with_row(self.params.ar, blocks, p, values),
            ar_blocks: blocks + 1,
            ar_count: text_model_line::up_to(blocks, p),
            ..self.params
        };
        Ok(Draft { params, ..self })
    }

    fn means(self, line: Line<'_>, sizes: Sizes) -> Result<Draft, ModelError> {
        if self.params.means_count != 0 {
            return Err(line.fault(Fault::Once));
        }
        let params = MsarParams {
            means: text_model_line::all_numbers(line.text, line.keyword.end, sizes.k)?,
            means_count: sizes.k,
            ..self.params
        };
        Ok(Draft { params, ..self })
    }

    fn variances(self, line: Line<'_>, sizes: Sizes) -> Result<Draft, ModelError> {
        if self.params.variances_count != 0 {
            return Err(line.fault(Fault::Once));
        }
        let row = text_model_line::one_or_all(line.text, line.keyword.end, sizes.k)?;
        let variances = row.values;
        let params = MsarParams {
            variances,
            variances_count: row.count,
            ..self.params
        };
        Ok(Draft { params, ..self })
    }
}

// The draft with what the line adds.
pub fn read(line: &[u8], draft: Draft) -> Result<Draft, ModelError> {
    let keyword = text_words::word(line, 0);
    if keyword.is_empty() {
        return Ok(draft);
    }
    let kind = text_model_line::keyword(keyword.of(line));
    let line = Line {
        text: line,
        keyword,
    };
    match kind.ok_or(line.fault(Fault::Keyword))? {
        Kind::Regimes => draft.regimes(line),
        Kind::Order => draft.order(line),
        Kind::Transition => draft.transition(line, draft.sizes(line)?),
        Kind::Means => draft.means(line, draft.sizes(line)?),
        Kind::Ar => draft.ar(line, draft.sizes(line)?),
        Kind::Variances => draft.variances(line, draft.sizes(line)?),
    }
}

// ---- the end

// Whether nothing is missing, in the order of the grammar. Missing AR blocks are the library's to refuse.
fn check(draft: &Draft) -> Result<(), ModelError> {
    let k = draft.k.ok_or(ModelError::Wrong(Fault::Regimes, 0))?;
    let p = draft.p.ok_or(ModelError::Wrong(Fault::Order, 0))?;
    shaped(k, p)?;
    if draft.rows < k {
        return Err(ModelError::Wrong(Fault::Transition(k), 0));
    }
    if draft.params.means_count == 0 {
        return Err(ModelError::Wrong(Fault::Means, 0));
    }
    if draft.params.variances_count == 0 {
        return Err(ModelError::Wrong(Fault::Variances, 0));
    }
    Ok(())
}

// The model that the lines say so far, whatever is missing. At order 0 a block has no numbers, and without a line for one there is one
// block.
pub fn so_far(draft: Draft) -> Model
    ensures { (result.spec.k_regimes ≡ unwrap_or draft.k 0) × (result.spec.order ≡ unwrap_or draft.p 0) }
{
    let k = draft.k.unwrap_or(0);
    let p = draft.p.unwrap_or(0);
    let mut params = draft.params;
    if params.ar_blocks == 0 && p == 0 {
        params.ar_blocks = 1;
    }
    let spec = MsarSpec {
        k_regimes: k,
        order: p,
        switching_ar: params.switching_ar(),
        switching_variance: params.switching_variance(),
    };
    Model { spec, params }
}

// The model that the lines say, where nothing is missing.
pub fn finish(draft: Draft) -> Result<Model, ModelError> {
    check(&draft)?;
    Ok(so_far(draft))
}
