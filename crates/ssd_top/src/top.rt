ghost use Rattle.std.specs.Prelude.{ℕ, ◌≡◌, ◌≢◌, ◌⊎◌, true, false, Some, length, map, ⊤};
ghost use Rattle.std.specs.Io.KnownBytes.{Appends};
ghost use Rattle.command_words.specs.Commands.{AreWithin, told_settings};
ghost use Rattle.ssd_geo.specs.Faults.{NeverFell, Rose};
ghost use Rattle.ssd_io.specs.Pieces.{AppendsFront};
ghost use Rattle.run_laws.specs.Headline.{IsStoppedRun, IsWholeRun};
ghost use Rattle.ssd_formats.specs.GeneratedWork.{generated_work};
ghost use Rattle.ssd_formats.specs.Words.{Settings as SettingsOf, command_of, format as format_with, gen as gen_with, run as run_with, save as save_with};
ghost use Rattle.ssd_top.specs.Commands.{AreLoadedBack, AreSavedBack, FailsSaving, IsFormatted, IsUnsaved, IsWritten, PrintsRun, SavesRun, WritesImage};
ghost use Rattle.ssd_top.specs.Commands.{are_loading, are_save, are_serving, takes_words};
ghost use Rattle.ssd_top.specs.HandedBack.{AreHandedBack, AreHandedIn, most_channels};
ghost use Rattle.ssd_top.specs.Serving.{Ends, IsCausedByTold, IsSilent};

use crate::Status;
use crate::ended::Ended;
use crate::format::format;
use crate::generate::generate;
use crate::saving::save;
use crate::serve::{Answer, serve_input};
use crate::served::Served;
use command_words::{Command, Settings, read_command};
use onfi_cmd::Die;
use ssd_geo::Word;
use ssd_io::{Sink, Source};
use std::alloc::Global;
use victim::Policy;

// Serves an input by settings, and prints what came of it.
fn serve_run<S: Source, O: Sink, D: Die>(
    alloc: Global,
    settings: Settings,
    input: &mut S,
    output: &mut O,
    dies: Vec<D>,
    policies: Vec<Box<dyn Policy + Send>>,
) -> Ended<D>
    requires settings { AreWithin settings }
    requires dies { AreHandedIn (map D.state dies.items) }
    requires policies { length policies.items ≡ most_channels }
    ensures served { result.status ≢ Status.Words }
    ensures read_fault { result.status ≡ Status.ReadFault
        → Rose (S.faults input.old) (S.faults input.new) }
    ensures write_fault { result.status ≡ Status.WriteFault
        → Rose (O.faults output.old) (O.faults output.new) }
    ensures reads_stay { result.status ≢ Status.ReadFault
        → S.faults input.new ≡ S.faults input.old }
    ensures writes_stay { result.status ≢ Status.WriteFault
        → O.faults output.new ≡ O.faults output.old }
    ensures reads { NeverFell (S.faults input.old) (S.faults input.new) }
    ensures writes { NeverFell (O.faults output.old) (O.faults output.new) }
    ensures dies { AreHandedBack result.status (map D.state dies.items) (map D.state result.dies.items) }
    ensures caused { IsCausedByTold (S.left input.old) result.status }
    ensures headline { result.status ≡ Status.Done
        → PrintsRun (told_settings settings) (S.left input.old) (S.left input.new) (map D.state dies.items)
        (map (λ policy. told policy) policies.items) (map D.state result.dies.items) IsWholeRun
        (Appends (O.written output.old) (O.written output.new)) }
    ensures headline_at_limit { (channel entries : ℕ) → result.status ≡ Status.HistoryLimit channel entries
        → PrintsRun (told_settings settings) (S.left input.old) (S.left input.new) (map D.state dies.items)
        (map (λ policy. told policy) policies.items) (map D.state result.dies.items)
        (λ head run. IsStoppedRun head run channel entries) (Appends (O.written output.old) (O.written output.new)) }
    ensures headline_front { result.status ≡ Status.WriteFault
        → PrintsRun (told_settings settings) (S.left input.old) (S.left input.new) (map D.state dies.items)
        (map (λ policy. told policy) policies.items) (map D.state result.dies.items) Ends
        (AppendsFront (O.written output.old) (O.written output.new)) }
    ensures nothing { IsSilent result.status → output.new ≡ output.old }
{
    let Answer { outcome, dies } = serve_input(alloc, settings, input, dies, policies);
    match outcome {
        Ok(served) => {
            let Served { mut printed, .. } = served;
            let status = printed.status();
            match printed.print(output) {
                Ok(()) => Ended { status, dies },
                Err(_) => Ended {
                    status: Status::WriteFault,
                    dies,
                },
            }
        }
        Err(status) => Ended { status, dies },
    }
}

/// Serves the words of a command line over a source and a sink, with dies and policies, and answers how that ended. Channel c
/// of a drive with K dies on each channel has the dies from number c * K on, and policy c.
pub fn run<S: Source, O: Sink, D: Die>(
    alloc: Global,
    words: &[Word],
    input: &mut S,
    output: &mut O,
    dies: Vec<D>,
    policies: Vec<Box<dyn Policy + Send>>,
) -> Ended<D>
    requires dies { AreHandedIn (map D.state dies.items) }
    requires policies { length policies.items ≡ most_channels }
    // The words that are refused, and only those; nothing was read.
    ensures refused { result.status ≡ Status.Words → takes_words words.now ≡ false }
    ensures untouched { result.status ≡ Status.Words → input.new ≡ input.old }
    ensures command { (result.status ≡ Status.Words) ⊎ (takes_words words.now ≡ true) }

    // A fault comes only where its count rose. At any other status the count is as it was, so
    // nothing that failed was made again.
    ensures read_fault { result.status ≡ Status.ReadFault
        → Rose (S.faults input.old) (S.faults input.new) }
    ensures write_fault { result.status ≡ Status.WriteFault
        → Rose (O.faults output.old) (O.faults output.new) }
    ensures reads_stay { result.status ≢ Status.ReadFault
        → S.faults input.new ≡ S.faults input.old }
    ensures writes_stay { result.status ≢ Status.WriteFault
        → O.faults output.new ≡ O.faults output.old }
    ensures reads { NeverFell (S.faults input.old) (S.faults input.new) }
    ensures writes { NeverFell (O.faults output.old) (O.faults output.new) }

    // The dies are handed back. A load count rose only at the die that failed in its mount, a load or where it was saved, which is
    // named. Where no trace is served no work count rose, and where no image is read they are as they were.
    ensures dies { are_save words.now ≡ false
        → AreHandedBack result.status (map D.state dies.items) (map D.state result.dies.items) }
    ensures dies_saved { are_save words.now ≡ true
        → AreSavedBack result.status (map D.state dies.items) (map D.state result.dies.items) }
    ensures dies_stay { are_loading words.now ≡ false → map D.state result.dies.items ≡ map D.state dies.items }
    ensures dies_loaded { are_serving words.now ≡ false
        → AreLoadedBack result.status (map D.state dies.items) (map D.state result.dies.items) }

    // A fault that is named is the first of what the source had.
    ensures caused { IsCausedByTold (S.left input.old) result.status }

    // The source had an input, which was read to its end, and a run of it was printed. It ended with the last call.
    ensures headline { (settings : SettingsOf) → command_of words.now ≡ Some (run_with settings) → result.status ≡ Status.Done
        → PrintsRun settings (S.left input.old) (S.left input.new) (map D.state dies.items)
        (map (λ policy. told policy) policies.items) (map D.state result.dies.items) IsWholeRun
        (Appends (O.written output.old) (O.written output.new)) }
    // So it was, and the run stopped: the history of this channel had no room for a call's next entry.
    ensures headline_at_limit { (settings : SettingsOf) → command_of words.now ≡ Some (run_with settings)
        → (channel entries : ℕ) → result.status ≡ Status.HistoryLimit channel entries
        → PrintsRun settings (S.left input.old) (S.left input.new) (map D.state dies.items)
        (map (λ policy. told policy) policies.items) (map D.state result.dies.items)
        (λ head run. IsStoppedRun head run channel entries) (Appends (O.written output.old) (O.written output.new)) }
    // Where the sink failed, a front of what the settings show of a run was written, which was whole or had stopped.
    ensures headline_front { (settings : SettingsOf) → command_of words.now ≡ Some (run_with settings)
        → result.status ≡ Status.WriteFault
        → PrintsRun settings (S.left input.old) (S.left input.new) (map D.state dies.items)
        (map (λ policy. told policy) policies.items) (map D.state result.dies.items) Ends
        (AppendsFront (O.written output.old) (O.written output.new)) }

    // The source had an input, which was read to its end, and a run of it ended with the last call. The drive that it left was saved,
    // with contents and the next session; its image is read again as what it was made of.
    ensures saved { (settings : SettingsOf) → command_of words.now ≡ Some (save_with settings) → result.status ≡ Status.Done
        → SavesRun settings (S.left input.old) (S.left input.new) (map D.state dies.items)
        (map (λ policy. told policy) policies.items) (map D.state result.dies.items) IsWholeRun
        (WritesImage (Appends (O.written output.old) (O.written output.new))) }
    // Where the sink failed, a front of its image was written.
    ensures saved_front { (settings : SettingsOf) → command_of words.now ≡ Some (save_with settings)
        → result.status ≡ Status.WriteFault
        → SavesRun settings (S.left input.old) (S.left input.new) (map D.state dies.items)
        (map (λ policy. told policy) policies.items) (map D.state result.dies.items) IsWholeRun
        (WritesImage (AppendsFront (O.written output.old) (O.written output.new))) }
    // Where a die failed, it did so before a call was served, and nothing was written, or where it was saved.
    ensures saved_failed { (settings : SettingsOf) → command_of words.now ≡ Some (save_with settings)
        → (die : ℕ) → result.status ≡ Status.DieFailed die
        → (output.new ≡ output.old) ⊎ FailsSaving settings (S.left input.old) (S.left input.new)
        (map D.state dies.items) (map (λ policy. told policy) policies.items) (map D.state result.dies.items) die
        (AppendsFront (O.written output.old) (O.written output.new)) }
    // The run stopped, as one that is printed, and nothing was saved.
    ensures saved_at_limit { (settings : SettingsOf) → command_of words.now ≡ Some (save_with settings)
        → (channel entries : ℕ) → result.status ≡ Status.HistoryLimit channel entries
        → SavesRun settings (S.left input.old) (S.left input.new) (map D.state dies.items)
        (map (λ policy. told policy) policies.items) (map D.state result.dies.items)
        (λ head run. IsStoppedRun head run channel entries) (λ head run. ⊤) }

    // The drive of an image was written again, blank; the source was read up to the end of the image, and no further.
    ensures formatted { command_of words.now ≡ Some format_with
        → IsFormatted result.status (S.left input.old) (S.left input.new) (O.written output.old) (O.written output.new) }
    // The work of a number was written, and nothing was read.
    ensures generated { (number : ℕ) → command_of words.now ≡ Some (gen_with number)
        → IsWritten result.status (O.written output.old) (O.written output.new) (generated_work number) }
    ensures unread { (number : ℕ) → command_of words.now ≡ Some (gen_with number) → input.new ≡ input.old }

    // Else nothing was written.
    ensures nothing { are_save words.now ≡ false → IsSilent result.status → output.new ≡ output.old }
    ensures nothing_saved { are_save words.now ≡ true → IsUnsaved result.status → output.new ≡ output.old }
{
    match read_command(words) {
        None => Ended {
            status: Status::Words,
            dies,
        },
        Some(Command::Run { settings }) => {
            serve_run(alloc, settings, input, output, dies, policies)
        }
        Some(Command::Race { .. }) => Ended {
            status: Status::Words,
            dies,
        },
        Some(Command::Save { settings }) => { save(alloc, settings, input, output, dies, policies) }
        Some(Command::Format) => {
            let mut dies = dies;
            let status = format(alloc, input, output, &mut dies);
            Ended { status, dies }
        }
        Some(Command::Gen { number }) => {
            let status = generate(output, number);
            Ended { status, dies }
        }
    }
}
