//! The syntax by which the large mode paints.
ghost use Rattle.std.specs.Prelude.{◌≡◌};
ghost use Rattle.large_session.specs.MiniSyntax.{mini_syntax};

/// The syntax file `mini.vim`, a usual one of a small language.
#[tactic(auto, unfolding(crate::specs::MiniSyntax::mini_syntax))]
pub fn mini_syntax() -> &'static str
    ensures { result.now ≡ mini_syntax }
{
    MINI_SYNTAX
}

const MINI_SYNTAX: &str = r#"" A small language
if exists("b:current_syntax")
  finish
endif
let s:cpo_save = &cpo
set cpo&vim

syn keyword miniType int char void
syn keyword miniCond if else
syn keyword miniTodo contained TODO FIXME
syn match miniNumber "\<\d\+\>"
syn region miniString start=+"+ skip=+\\\\\|\\"+ end=+"+
      \ contains=@Spell,miniEscape
syn match miniEscape "\\." contained
syn cluster miniNote contains=miniTodo,@Spell
syn region miniComment start="/\*" end="\*/" contains=@miniNote
syn match miniLine "//.*" contains=@miniNote
syn region miniPre start="^\s*#" skip="\\$" end="$" keepend
      \ contains=miniComment,miniString
syn region miniParen transparent start="(" end=")"
      \ contains=ALLBUT,miniTodo,miniEscape
syn sync fromstart

hi def link miniType Type
hi def link miniCond Conditional
hi def link miniTodo Todo
hi def link miniNumber Number
hi def link miniString String
hi def link miniEscape SpecialChar
hi def link miniComment Comment
hi def link miniLine Comment
hi def link miniPre PreProc
let b:current_syntax = "mini"
let &cpo = s:cpo_save
unlet s:cpo_save
"#;
