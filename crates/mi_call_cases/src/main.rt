//! Carries out scripts of calls: each step makes one public call of a library, and prints its answer.
#![tactic(auto)]

mod answers;
mod causes;
mod conditions;
mod differences;
mod directories;
mod given;
mod images;
mod lists;
mod paths;
mod properties;
mod records;
mod reports;
mod sources;
mod tables;
mod texts;
mod values;
mod versions;
mod volumes;

use given::Given;
use mi_lines::{Call, Caller, Stop, run_calls};
use std::process::ExitCode;

// Makes a call of texts and records.
fn call_texts(name: &str, call: &mut Call<'_>) {
    match name {
        "record" => records::say_record(call),
        "head" => records::say_head(call),
        "entry" => records::say_entry(call),
        "table" => tables::say_table(call),
        "rows" => tables::say_rows(call),
        "value" => values::say_change(call),
        "list-text" => values::say_list_text(call),
        "mode" => versions::say_mode(call),
        "replaces" => versions::say_replaces(call),
        "report" => reports::say_report(call),
        _ => texts::call(name, call),
    }
}

// Makes a call of what is given.
fn call_given(given: &Given, name: &str, call: &mut Call<'_>) {
    match name {
        "condition" => conditions::say_condition(&given.lookups, call),
        "expand" => conditions::say_expanded(&given.lookups, call),
        "expand-within" => conditions::say_within(&given.lookups, call),
        "properties" => properties::say_properties(given, call),
        "directories" => directories::say_directories(given, call),
        "source" => sources::say_source(given, call),
        "sink" => sources::say_sink(given, call),
        "load" => sources::say_loaded(given, call),
        "volume" => volumes::say_volume(&given.volume, call),
        "settle" => volumes::say_settling(&given.volume, call),
        _ => call_texts(name, call),
    }
}

impl Caller for Given {
    fn clear(&mut self) {
        self.clear_all();
    }

    fn give(&mut self, kind: &str, call: &mut Call<'_>) -> Result<(), Stop> {
        self.give_kind(kind, call)
    }

    fn call(&self, name: &str, call: &mut Call<'_>) {
        if name == "scan" || name.starts_with("image-") || name.ends_with("s-text") {
            images::call(self, name, call);
        } else if name == "differs" {
            differences::say_differences(&self.volume, call);
        } else {
            call_given(self, name, call);
        }
    }
}

fn main(rt: HostRuntime) -> ExitCode {
    let given = Given::new(rt.alloc());
    run_calls(&rt, given)
}
