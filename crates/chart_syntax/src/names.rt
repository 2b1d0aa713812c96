use crate::table::Named;
use lin_form::Name;
use line_forms::{InputForm, MemoryForm, OutputForm};

impl Named for InputForm {
    ghost name_of = { λ form. form.name };

    fn name(&self) -> Name {
        self.name
    }
}

impl Named for OutputForm {
    ghost name_of = { λ form. form.name };

    fn name(&self) -> Name {
        self.name
    }
}

impl Named for MemoryForm {
    ghost name_of = { λ form. form.name };

    fn name(&self) -> Name {
        self.name
    }
}
