//! Which dispatch list serves for the viewers of a form of an edit of messages.

ghost use Rattle.std.specs.Prelude.{◌≡◌, Option, None};
ghost use Rattle.message_events.specs.declared.forms.MessageForm.{MessageForm};
ghost use Rattle.worker_core.specs.Forms.{index_of_form, with_index};

use message_events::MessageForm;

/// Per form, the index of the dispatch list for its viewers, once it was built.
#[derive(Clone, Copy)]
pub struct FormIndex {
    hidden: Option<usize>,
    emptied: Option<usize>,
    whole: Option<usize>,
}

impl FormIndex {
    /// No list was built.
    pub fn new() -> FormIndex
        ensures { (form : Option MessageForm) → index_of_form result form ≡ None }
    {
        FormIndex {
            hidden: None,
            emptied: None,
            whole: None,
        }
    }

    /// The index of the list for the viewers of a form. `None` if it was not built, and without a form.
    pub fn index(&self, form: Option<MessageForm>) -> Option<usize>
        ensures { result ≡ index_of_form self.now form }
    {
        match form? {
            MessageForm::Hidden => self.hidden,
            MessageForm::Emptied => self.emptied,
            MessageForm::Whole => self.whole,
        }
    }

    /// Keeps the index of the list for the viewers of a form. Does nothing without a form.
    pub fn keep(&mut self, form: Option<MessageForm>, index: usize)
        ensures { self.new ≡ with_index self.old form index }
    {
        match form {
            Some(MessageForm::Hidden) => self.hidden = Some(index),
            Some(MessageForm::Emptied) => self.emptied = Some(index),
            Some(MessageForm::Whole) => self.whole = Some(index),
            None => {}
        }
    }
}
