//! Copies of events and answers, for a note.
ghost use Rattle.std.specs.Prelude.{◌≡◌, IfOk, IfSome};
ghost use Rattle.test_daemon.specs.Shelves as shelves;
ghost use Rattle.store_engine.specs.Terms.{terms_of};
ghost use Rattle.daemon_core.specs.StoreAccess.{delivery_of};
ghost use Rattle.daemon_core.specs.Together.{deliveries_told, deliveries_of, ids_of};

use daemon_core::gathered::GatheredRequest;
use daemon_core::note::ToldDelivery;
use lmtp_connections::DeliveryRequest;
use octets::{List, Octets};
use std::alloc::{AllocError, Global};
use store_engine::{Answer, Envelope, Event, LentTerms, Report, Terms};

/// The same event, if it is one that the daemon applies; none otherwise.
pub fn copy_event(event: &Event) -> Option<Event>
    ensures { IfSome result (λ copy. copy ≡ event.now) }
{
    match event {
        Event::Open(number) => Some(Event::Open(*number)),
        Event::Step(number) => Some(Event::Step(*number)),
        Event::GiveUp(number) => Some(Event::GiveUp(*number)),
        Event::Close(number) => Some(Event::Close(*number)),
        _ => None,
    }
}

/// The event of a message for one recipient, under these terms.
pub fn copy_delivery(
    alloc: Global,
    request: &DeliveryRequest,
    terms: LentTerms<'_>,
) -> Result<Event, AllocError>
    ensures { IfOk result (λ event. event ≡ delivery_of request.now (terms_of terms.entry)) }
{
    Ok(Event::Deliver {
        user: request.user.try_clone(alloc)?,
        envelope: Envelope {
            from: request.sender.try_clone(alloc)?,
            to: request.recipient.try_clone(alloc)?,
        },
        message: request.message.try_clone(alloc)?,
        terms: Terms {
            when: terms.when,
            host: terms.host.try_clone(alloc)?,
        },
    })
}

/// The same answer, if it is one of a session or of a delivery; none otherwise, or if memory is lacking.
pub fn copy_answer(alloc: Global, answer: &Answer) -> Option<Answer>
    ensures { IfSome result (λ copy. copy ≡ answer.now) }
{
    match answer {
        Answer::Out(progress, octets) => match octets.try_clone(alloc) {
            Ok(octets) => Some(Answer::Out(*progress, octets)),
            Err(_) => None,
        },
        Answer::Delivered(report) => match copy_report(alloc, report) {
            Ok(report) => Some(Answer::Delivered(report)),
            Err(_) => None,
        },
        Answer::Ignored => Some(Answer::Ignored),
        Answer::Refused(refusal) => Some(Answer::Refused(*refusal)),
        _ => None,
    }
}

fn copy_report(alloc: Global, report: &Report) -> Result<Report, AllocError>
    ensures { IfOk result (λ copy. copy ≡ report.now) }
{
    Ok(Report {
        filed: report.filed.try_clone(alloc)?,
        sent: report.sent.try_clone(alloc)?,
        vacation: report.vacation,
        notice: copy_text(alloc, &report.notice)?,
    })
}

fn copy_text(alloc: Global, text: &Option<Octets>) -> Result<Option<Octets>, AllocError>
    ensures { IfOk result (λ copy. copy ≡ text.now) }
{
    match text {
        Some(text) => Ok(Some(text.try_clone(alloc)?)),
        None => Ok(None),
    }
}

/// Whether an event is one of accounts, and names no session.
pub fn is_of_accounts(event: &Event) -> bool
    ensures { result ≡ shelves.is_of_accounts event.now }
{
    match event {
        Event::Deliver { .. } => true,
        Event::AddUser { .. } => true,
        Event::Import(_) => true,
        Event::TakeOut { .. } => true,
        Event::TakeMail { .. } => true,
        Event::DoUpkeep { .. } => true,
        _ => false,
    }
}

/// The deliveries of these messages under these terms, with their answers. Lack of memory is the only error.
pub fn copy_told(
    alloc: Global,
    requests: &[GatheredRequest],
    terms: &Terms,
    answers: &[Answer],
) -> Result<List<ToldDelivery>, AllocError>
    ensures { IfOk result (λ told. told ≡ deliveries_told terms.now requests.now answers.now) }
{
    let mut told = Vec::new(alloc);
    let mut rest = requests;
    let mut left = answers;
    while let Some((it, more)) = rest.split_first() {
        let Some((answer, others)) = left.split_first() else {
            break;
        };
        told.push(copy_one(alloc, it, terms, answer)?)?;
        rest = more;
        left = others;
    }
    Ok(List::from_vec(told))
}

fn copy_one(
    alloc: Global,
    it: &GatheredRequest,
    terms: &Terms,
    answer: &Answer,
) -> Result<ToldDelivery, AllocError>
    ensures { IfOk result (λ told. told ≡ record { id = it.now.id; event = delivery_of it.now.request terms.now; answer = answer.now }) }
{
    let event = copy_event_of(alloc, it, terms)?;
    match copy_answer(alloc, answer) {
        Some(answer) => Ok(ToldDelivery {
            id: it.id,
            event,
            answer,
        }),
        None => Err(AllocError),
    }
}

/// The delivery of a message under these terms. Lack of memory is the only error.
fn copy_event_of(alloc: Global, it: &GatheredRequest, terms: &Terms) -> Result<Event, AllocError>
    ensures { IfOk result (λ event. event ≡ delivery_of it.now.request terms.now) }
{
    copy_delivery(alloc, &it.request, terms.lend())
}

/// The deliveries of these messages under these terms. Lack of memory is the only error.
pub fn copy_deliveries(
    alloc: Global,
    requests: &[GatheredRequest],
    terms: &Terms,
) -> Result<List<Event>, AllocError>
    ensures { IfOk result (λ events. events ≡ deliveries_of terms.now requests.now) }
{
    let mut events = Vec::new(alloc);
    for it in requests.iter() {
        events.push(copy_event_of(alloc, it, terms)?)?;
    }
    Ok(List::from_vec(events))
}

/// The numbers of their connections. Lack of memory is the only error.
pub fn copy_ids(alloc: Global, requests: &[GatheredRequest]) -> Result<List<u32>, AllocError>
    ensures { IfOk result (λ ids. ids ≡ ids_of requests.now) }
{
    let mut ids = Vec::new(alloc);
    for it in requests.iter() {
        ids.push(it.id)?;
    }
    Ok(List::from_vec(ids))
}
