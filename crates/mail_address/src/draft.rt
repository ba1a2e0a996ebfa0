//! The address that a part of a list gives, as far as its tokens have been read.
ghost use Rattle.std.specs.Prelude.{◌≡◌, ◌++◌, IfOk, OnOk};
ghost use Rattle.mail_address.specs.Drafts as drafts;

use crate::address::Addr;
use crate::pieces::Pieces;
use crate::scanner::AddrPieceKind;
use std::alloc::{AllocError, Global};

/// Where in its part the next token is.
#[derive(Clone, Copy)]
pub enum BracketState {
    /// Before any angle bracket: in a display name, or in an address without brackets.
    Front,
    /// Right after an opening bracket, where a route may begin.
    Open,
    /// In a route.
    Route,
    /// In brackets, after the route if there is one.
    Inside,
    /// After a closing bracket, where nothing more may follow.
    After,
}

/// How much of an addr-spec has been read.
#[derive(Clone, Copy)]
pub enum AddrSpecState {
    Start,
    /// After a word of the local part.
    Word,
    /// After a dot of the local part.
    Dot,
    /// After the `@`.
    At,
    /// After an atom of the domain.
    Name,
    /// After a dot of the domain.
    NameDot,
    /// After a domain literal.
    Literal,
    /// What was read isn't the beginning of an addr-spec.
    Wrong,
}

/// A part of a list, as far as it has been read.
#[derive(Drop)]
pub struct Draft<'a> {
    pub place: BracketState,
    pub stage: AddrSpecState,
    pub local: Pieces<'a>,
    pub domain: Pieces<'a>,
}

fn stage_after(stage: AddrSpecState, kind: AddrPieceKind) -> AddrSpecState
    ensures { result ≡ drafts.spec_state_after stage kind }
{
    match stage {
        AddrSpecState::Start | AddrSpecState::Dot => match kind {
            AddrPieceKind::Atom | AddrPieceKind::Quoted => AddrSpecState::Word,
            _ => AddrSpecState::Wrong,
        },
        AddrSpecState::Word => match kind {
            AddrPieceKind::Dot => AddrSpecState::Dot,
            AddrPieceKind::At => AddrSpecState::At,
            _ => AddrSpecState::Wrong,
        },
        AddrSpecState::At => match kind {
            AddrPieceKind::Atom => AddrSpecState::Name,
            AddrPieceKind::Literal => AddrSpecState::Literal,
            _ => AddrSpecState::Wrong,
        },
        AddrSpecState::Name => match kind {
            AddrPieceKind::Dot => AddrSpecState::NameDot,
            _ => AddrSpecState::Wrong,
        },
        AddrSpecState::NameDot => match kind {
            AddrPieceKind::Atom => AddrSpecState::Name,
            _ => AddrSpecState::Wrong,
        },
        AddrSpecState::Literal | AddrSpecState::Wrong => AddrSpecState::Wrong,
    }
}

/// Appends the value of a word, a dot or a domain literal.
fn append<'a>(
    alloc: Global,
    out: &mut Pieces<'a>,
    kind: AddrPieceKind,
    text: &[u8],
    from: &'a [u8],
) -> Result<(), AllocError>
    ensures { OnOk result (out.new ≡ out.old ++ drafts.token_value kind text.now) }
{
    match kind {
        AddrPieceKind::Quoted => out.add_unquoted(alloc, text),
        AddrPieceKind::Dot => out.add(alloc, b".", from),
        _ => out.add(alloc, text, from),
    }
}

impl<'a> Draft<'a> {
    ghost use Rattle.mail_address.specs.declared.draft.BracketState.TheVariants as P;
    ghost use Rattle.mail_address.specs.declared.draft.AddrSpecState.TheVariants as S;

    /// Nothing has been read yet. Takes no memory.
    pub(crate) fn new(alloc: Global, place: BracketState) -> Draft<'a>
        ensures { result ≡ drafts.empty_draft_at place }
    {
        Draft {
            place,
            stage: AddrSpecState::Start,
            local: Pieces::new(alloc),
            domain: Pieces::new(alloc),
        }
    }

    /// Whether no angle bracket is open.
    pub(crate) fn is_outside(&self) -> bool
        ensures { result ≡ drafts.is_outside self.now.place }
    {
        match self.place {
            BracketState::Front | BracketState::After => true,
            _ => false,
        }
    }

    /// Begins anew after an opening bracket.
    fn open(&mut self)
        ensures { self.new ≡ drafts.empty_draft_at P.Open }
    {
        self.place = BracketState::Open;
        self.stage = AddrSpecState::Start;
        self.local.clear();
        self.domain.clear();
    }

    /// Reads a token of an addr-spec.
    fn read(
        &mut self,
        alloc: Global,
        kind: AddrPieceKind,
        text: &[u8],
        from: &'a [u8],
    ) -> Result<(), AllocError>
        ensures { OnOk result (self.new ≡ drafts.after_spec_token self.old kind text.now) }
    {
        self.stage = stage_after(self.stage, kind);
        match self.stage {
            AddrSpecState::Word | AddrSpecState::Dot => append(
                alloc,
                &mut self.local,
                kind,
                text,
                from,
            ),
            AddrSpecState::Name | AddrSpecState::NameDot | AddrSpecState::Literal => append(
                alloc,
                &mut self.domain,
                kind,
                text,
                from,
            ),
            _ => Ok(()),
        }
    }

    /// Reads a token at its place.
    fn take_at(
        &mut self,
        alloc: Global,
        kind: AddrPieceKind,
        text: &[u8],
        from: &'a [u8],
    ) -> Result<(), AllocError>
        ensures { OnOk result (self.new ≡ drafts.after_token_at self.old.place self.old kind text.now) }
    {
        match self.place {
            BracketState::Front => match kind {
                AddrPieceKind::Less => self.open(),
                AddrPieceKind::Greater => self.reject(BracketState::After),
                _ => self.read(alloc, kind, text, from)?,
            },
            BracketState::Open => match kind {
                AddrPieceKind::At => self.place = BracketState::Route,
                AddrPieceKind::Greater => self.place = BracketState::After,
                _ => {
                    self.place = BracketState::Inside;
                    self.read(alloc, kind, text, from)?;
                }
            },
            BracketState::Route => match kind {
                AddrPieceKind::Colon => self.place = BracketState::Inside,
                AddrPieceKind::Greater => self.place = BracketState::After,
                _ => {}
            },
            BracketState::Inside => match kind {
                AddrPieceKind::Greater => self.place = BracketState::After,
                _ => self.read(alloc, kind, text, from)?,
            },
            BracketState::After => match kind {
                AddrPieceKind::Less => self.reject(BracketState::Inside),
                _ => self.reject(BracketState::After),
            },
        }
        Ok(())
    }

    /// Notes that this part can't give an address any more.
    fn reject(&mut self, place: BracketState)
        ensures { self.new ≡ record self.old { place = place; stage = S.Wrong } }
    {
        self.place = place;
        self.stage = AddrSpecState::Wrong;
    }

    /// Reads a token that doesn't end the part. Blanks and comments change nothing.
    ///
    /// `from` is the value from the token on. It saves copies; the result doesn't depend on it.
    pub(crate) fn take(
        &mut self,
        alloc: Global,
        kind: AddrPieceKind,
        text: &[u8],
        from: &'a [u8],
    ) -> Result<(), AllocError>
        ensures { OnOk result (self.new ≡ drafts.after_token self.old kind text.now) }
    {
        match kind {
            AddrPieceKind::Blank | AddrPieceKind::Comment => Ok(()),
            _ => self.take_at(alloc, kind, text, from),
        }
    }

    /// Whether an addr-spec has been read to its end.
    fn is_whole(&self) -> bool
        ensures { result ≡ drafts.is_whole self.now }
    {
        match self.stage {
            AddrSpecState::Name | AddrSpecState::Literal => self.is_outside(),
            _ => false,
        }
    }

    /// The address that the part gives, if it ends here.
    fn address(&self, alloc: Global) -> Result<Option<Addr>, AllocError>
        ensures { IfOk result (λ found. found ≡ drafts.draft_address self.now) }
    {
        if !self.is_whole() {
            return Ok(None);
        }
        Ok(Some(Addr {
            local: self.local.try_clone(alloc)?,
            domain: self.domain.try_clone(alloc)?,
        }))
    }

    /// Begins the next part.
    pub(crate) fn restart(&mut self)
        ensures { self.new ≡ drafts.empty_draft }
    {
        self.open();
        self.place = BracketState::Front;
    }

    /// Returns the address that the part gives if it ends here, and begins the next part.
    pub(crate) fn finish(&mut self, alloc: Global) -> Result<Option<Addr>, AllocError>
        ensures found { IfOk result (λ found. found ≡ drafts.draft_address self.old) }
        ensures anew { OnOk result (self.new ≡ drafts.empty_draft) }
    {
        let found = self.address(alloc)?;
        self.restart();
        Ok(found)
    }
}
