//! What stands in front of a message.
ghost use Rattle.std.specs.Prelude.{◌≡◌, Ok, Err, Some, cond};
ghost use Rattle.mos_grammar.specs.Streams.{before_message, may_declare as may_declare_of, may_mark as may_mark_of, message_step};
ghost use Rattle.mos_tokens.specs.TokenView.{token_of};
ghost use Rattle.mos_elements.specs.Standing.{position_after, stage_of};

use crate::place::Stage;
use mos_columns::is_name;
use mos_fields::Field;
use mos_forms::is_white;
use mos_grammar::Fault;
use mos_tokens::Token;

fn may_mark(stage: Stage) -> bool
    ensures { result ≡ may_mark_of (stage_of stage) }
{
    matches!(stage, Stage::BeforeProlog)
}

fn may_declare(stage: Stage) -> bool
    ensures { result ≡ may_declare_of (stage_of stage) }
{
    match stage {
        Stage::BeforeProlog | Stage::BehindMark => true,
        Stage::BehindDeclaration => false,
    }
}

fn stays_if(fits: bool, stage: Stage) -> Result<Option<Stage>, Fault>
    ensures { result ≡ cond fits (Ok (Some stage)) (Err Fault.Tag) }
{
    if fits {
        Ok(Some(stage))
    } else {
        Err(Fault::Tag)
    }
}

/// What one token does in front of a message: what may still stand there, or nothing where the message begins; or its
/// fault.
#[tactic(auto, unfolding(mos_grammar::specs::Streams::message_step, mos_grammar::specs::Records::end_fault, mos_grammar::specs::Records::seen_of))]
pub fn step_before(stage: Stage, token: Token<'_>) -> Result<Option<Stage>, Fault>
    ensures { position_after result ≡ message_step (before_message (stage_of stage)) (token_of token.entry) }
{
    match token {
        Token::OpenTag(name, _, _) => {
            if is_name("mos", name) {
                Ok(None)
            } else {
                Err(Fault::Tag)
            }
        }
        Token::EmptyTag(name, _, _) => {
            if is_name("mos", name) {
                Err(Fault::Missing(Field::MosID))
            } else {
                Err(Fault::Tag)
            }
        }
        Token::CloseTag(_) | Token::Tail(_) => Err(Fault::Tag),
        Token::Text(raw, _) => stays_if(is_white(raw), stage),
        Token::Mark => stays_if(may_mark(stage), Stage::BehindMark),
        Token::Declaration => stays_if(may_declare(stage), Stage::BehindDeclaration),
    }
}
