ghost use Rattle.std.specs.Prelude.{IfSome};
ghost use Rattle.pif_text_model.specs.CommandTexts.{AreArgumentsWritten, IsAdditionWritten, IsEventWritten, IsRequestWritten, IsRunWritten, IsWritten};
ghost use Rattle.pif_text_model.specs.Numbers.{IsName, IsNumber};
ghost use Rattle.pif_text_model.specs.Questions.{IsQuestionWritten};

use pif_core::Event;
use pif_text::{Addition, Command, Question};
use pif_text_model::Arguments;
use pif_types::{CondId, MutexId, Request, Tid};

/// A line can write the numbers of a command. The types have them in range, and each case is proved by itself.
pub fn see_written(command: Command)
    ensures { IsWritten command }
{
    match command {
        Command::Limits(..) => {}
        Command::Add(addition) => see_addition(addition),
        Command::Event(event) => see_event(event),
        Command::Run(thread, request) => see_run(thread, request),
        Command::Ask(question) => see_question(question),
    }
}

fn see_addition(addition: Addition)
    ensures { IsAdditionWritten addition }
{
    match addition {
        Addition::Thread(_) => {}
        Addition::Mutex(..) => {}
        Addition::Cond(_) => {}
    }
}

fn see_event(event: Event)
    ensures { IsEventWritten event }
{
    match event {
        Event::Begin(_, request) => see_request(request),
        Event::Go(_) => {}
        Event::End(_) => {}
        Event::Tick(_) => {}
    }
}

fn see_run(thread: Tid, request: Option<Request>)
    ensures { IsRunWritten thread request }
{
    match request {
        Some(request) => see_request(request),
        None => {}
    }
}

fn see_question(question: Question)
    ensures { IsQuestionWritten question }
{
    match question {
        Question::Word(_) => {}
        Question::Health(_) => {}
        Question::CondWord(_) => {}
        Question::Prio(_) => {}
        Question::Pick => {}
    }
}

fn see_request(request: Request)
    ensures { IsRequestWritten request }
{
    see_arguments(&Arguments::of(&request));
}

fn see_arguments(arguments: &Arguments)
    ensures { AreArgumentsWritten arguments.now }
{
    see_thread(arguments.thread);
    see_mutex(arguments.mutex);
    see_cond(arguments.cond);
    see_number(arguments.priority);
    see_number(arguments.deadline);
}

fn see_thread(thread: Option<Tid>)
    ensures { IfSome thread IsName }
{
    match thread {
        Some(_) | None => {}
    }
}

fn see_mutex(mutex: Option<MutexId>)
    ensures { IfSome mutex IsName }
{
    match mutex {
        Some(_) | None => {}
    }
}

fn see_cond(cond: Option<CondId>)
    ensures { IfSome cond IsName }
{
    match cond {
        Some(_) | None => {}
    }
}

fn see_number(number: Option<u32>)
    ensures { IfSome number IsNumber }
{
    match number {
        Some(_) | None => {}
    }
}
