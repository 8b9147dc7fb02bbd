//! What a judgement of an expression gives (docs/language.md, "Judgements").

use rg_base::Ty;
use rg_flow::Env;

/// The type of an expression, and the variables as they are afterwards.
#[derive(Drop)]
pub struct Judged {
    pub ty: Ty,
    pub env: Env,
}
