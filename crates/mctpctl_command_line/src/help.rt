//! The texts that `--help` adds to what clap says, and the version.

/// What `--version` says after the program's name: its own version, and the logic that it is proved in, as
/// `rt version` names it.
pub const VERSION: &str = "1.0.0 (rattle logic dac8208d650f15bf)";

/// What `--explain` does.
pub const EXPLAIN: &str =
    "Say more of a refused input on standard error, and warn of what is ignored";

/// What `--decode` does.
pub const DECODE: &str = "Show the fields of commands and answers by name";

/// What `--binding` does.
pub const BINDING: &str = "Read each line's bytes as a frame of this binding";

/// The values of `--binding`.
pub const BINDINGS: &str = "i2c|i3c|serial";

/// What is said where `--binding` has another value.
pub const NO_BINDING: &str = "\
error: invalid value for '--binding <i2c|i3c|serial>'

For more information, try '--help'.
";

/// What `--device` names.
pub const DEVICE: &str = "The description of the device, in TOML";

/// What `--log` names.
pub const LOG: &str = "Write the packets that come and those that are sent to this file, a capture";

/// What `--verbose` does.
pub const VERBOSE: &str = "Say on standard error what is dropped, and why";

/// What `--faults` does.
pub const FAULTS: &str = "SEED,LOSE,REPEAT,DELAY: lose, repeat and delay frames, both ways";

/// What `--firmware` names.
pub const FIRMWARE: &str = "Take firmware updates into this file";

/// What `--agent` is.
pub const AGENT: &str = "The endpoint ID of the update agent, 8 to 254 [default: 8]";

/// What `--lifetime` of `serve` is.
pub const PIECE_LIFETIME: &str =
    "How late a packet of a request for a piece of the firmware may come [default: 250]";

/// What is said before the reason where `--faults` has another value.
pub const NO_FAULTS: &str = "error: invalid value for '--faults <FAULTS>': ";

/// What `--line` names.
pub const LINE: &str = "The terminal to ask on; standard input and output where none is named";

/// What `--own` is.
pub const OWN: &str = "The endpoint ID that asks, 8 to 254";

/// What `--device` of `ask` is.
pub const ASKED: &str = "The endpoint ID of the device, 8 to 254";

/// What `--keep` is.
pub const KEEP: &str = "The keeping time of the device [default: 6000]";

/// What `--timeout` is.
pub const TIMEOUT: &str = "How long a try waits for an answer [default: 2000]";

/// What `--tries` is.
pub const TRIES: &str = "How often a request is sent at most, 1 to 8 [default: 3]";

/// What `--lifetime` is.
pub const LIFETIME: &str =
    "How late a packet of a request may still come [default: 250 with --window, else that of --keep]";

/// What `--window` is.
pub const WINDOW: &str =
    "For how many instance IDs the device keeps answers, 1 to 32 [default: 32]";

/// What `--hex` does.
pub const HEX: &str = "Print answers as bytes in hex";

/// What `--state` names.
pub const STATE: &str =
    "Keep in this file when requests were opened [default: one for each line and device]";

/// What `--no-state` does.
pub const NO_STATE: &str = "Keep nothing, and wait until earlier requests can have no answer";

/// What `--records` names.
pub const RECORDS: &str = "Write the records of the device to this file, as they were read";

/// What the one word of `update` names.
pub const IMAGE: &str = "A firmware update package, or the image of a component";

/// What `--component` is.
pub const COMPONENT: &str =
    "CLASSIFICATION:IDENTIFIER:INDEX of the component that an image is for [default: the only one]";

/// What `--image-version` is.
pub const IMAGE_VERSION: &str = "The version of an image [default: the name of its file]";

/// What `--dry-run` does.
pub const DRY_RUN: &str = "Ask what the device is and whether the file is for it; transfer nothing";

/// What `--every` is.
pub const EVERY: &str = "How long a period is, up to a day [default: 1000]";

/// What `--count` is.
pub const COUNT: &str = "How many periods there are; without end where it is not said";

/// What `--log` of `watch` names.
pub const READINGS: &str = "Write the readings to this file, as comma-separated values";

/// What `--file` names.
pub const COMMANDS: &str = "Ask the commands on the lines of this file, one after another";

/// What the last words of `ask` are.
pub const COMMAND: &str = "The command, in the words of a schedule; it comes last";

/// What is said where there is no command, or a file too.
pub const NO_COMMAND: &str = "error: either a COMMAND or '--file <FILE>' is needed";

/// What is said after a refused command line.
pub const TRY_HELP: &str = "\n\nFor more information, try '--help'.\n";

/// The exit statuses.
pub const STATUSES: &str = "\
Exit status:
  0  done, or help was asked for
  1  the input was refused: one line on standard error says why; for 'ask', a device
     refused a command
  2  the command line was refused
  3  a file, a read, a write or the clock failed, there was no memory, or a device that
     was asked did not answer";

/// What `answer` reads and writes.
pub const ANSWER: &str = "\
Input, from standard input: a device description in TOML, a line '%%', and a capture.
A capture line is a moment in milliseconds, a space, and a packet in hex:

  eid = 9
  keep_ms = 1000
  tid = 1
  version0 = \"00f0f0f1\"
  version2 = \"00f2f1f1\"
  update_time = \"00000000000000000000000000\"
  oem_update_time = \"00000000000000000000000000\"
  %%
  # endpoint 8 asks device 9 for its terminus ID
  0 010908c801800002

Output: for each packet 'drop NAME', 'partial', or the packets of the answer in hex, as
soon as the line has been read:

  010809c0010000020001

Exit status:
  0  done
  1  the input was refused: one line on standard error says why
  3  a read or a write failed, or there was no memory";

/// What `run` reads and writes.
pub const RUN: &str = "\
Input, from standard input: a device description in TOML, a line '%%', and a schedule of
what is delivered between requesters and the device. Nothing else is, so what no line
delivers is lost. A line that begins with '#' is a comment. A schedule has these lines:

  requester EID timeout MS tries N   a requester, and when it sends a request again
  at MS open EID COMMAND             it opens a request; requests are numbered from 0
  at MS tick EID                     it sends again and gives up what is due
  at MS req K                        the packet of request K comes to the device
  at MS rep K J                      packet J of its latest reply comes to the requester
  at MS sense ID VALUE               a numeric sensor of the device gets a reading
  at MS restart                      the device's end restarts, and is busy for keep_ms
  at MS busy K                       the latest busy answer to K comes to the requester

COMMAND is gettid, settid N, getversion TYPE, gettypes, getcommands TYPE, sensor ID,
statesensors ID, setnum ID SIZE VALUE, getnum ID, setstate ID S .., getstate ID, pdrinfo
or getpdr RECORD TRANSFER first|next COUNT. In setstate an S is a state, or '-' for none.
Thus, after a description and '%%':

  requester 8 timeout 200 tries 3
  at 0 open 8 gettid
  at 0 req 0
  at 200 tick 8
  at 200 req 0
  at 210 rep 0 0

Output, once all of the schedule has been run: what came of each step, how each request
stands, the requests in the order in which the device performed them, the device, and
whether the schedule was timely:

  0 opened 0
  0 fresh unchanged
  200 again 0
  200 copy
  210 answered
  request 0 from 8 answered 010000020001
  order 0
  tid 1
  timely: yes

Exit status:
  0  done, whether the schedule was timely or not
  1  the input was refused: one line on standard error says why, and nothing was written
  3  a read or a write failed, or there was no memory";

/// What `show` reads and writes.
pub const SHOW: &str = "\
Input, from standard input: a capture alone, with no description before it. A capture
line is a moment in milliseconds, a space, and a packet in hex, from and to any endpoint:

  # endpoint 8 asks device 9 for its terminus ID
  0 010908c801800002
  1 010809c0010000020001

Output: for each packet its header and what it gave ('whole', 'partial' or 'drop NAME'),
and after 'whole' the message, as soon as the line has been read. A request is followed by
'ok', or by 'refused' and the completion code of its refusal:

  0 8>9 tag 0 to 1 som 1 eom 1 seq 0 len 4 whole
    request 0 GetTID - ok
  1 9>8 tag 0 to 0 som 1 eom 1 seq 0 len 6 whole
    response 0 GetTID 00 01

With --decode the line of a message has the fields of its command or answer by name, also
that of an MCTP control message:

    request 0 GetTID
    response 0 GetTID tid 1

With --binding the bytes of a line are a whole frame, with its addresses and checks, as a
logic analyser logs it: 'i2c' (DSP0237), 'i3c' (DSP0233) or 'serial' (DSP0253). Bytes that
are no frame have a line 'MS no frame: NAME' with the reason. The first packet above, from
the device at address 10 to the one at 1d, is in the frame

  0 3a0f0921010908c801800002ca

On a terminal what was dropped is red and, with --decode, a reading yellow that differs
from the one before. There are no colours where NO_COLOR is set, or TERM is dumb.

Exit status:
  0  done
  1  the input was refused: one line on standard error says why
  3  a read or a write failed, or there was no memory";

/// What `serve` reads and writes.
pub const SERVE: &str = "\
Input, from standard input: the bytes of a serial line, on which each packet is in a frame
of DSP0253. The description is read first. In hex, the frame by which endpoint 8 asks
device 9 for its terminus ID:

  7e 01 08 01 09 08 c8 01 80 00 02 0c a6 7e

Output: the frames of the device's answer, as soon as the frame of a packet has ended. What
is no frame, and what the device drops, gets no answer. Where the terminus ID is 1:

  7e 01 0a 01 08 09 c0 01 00 00 02 00 01 13 13 7e

The moment of a packet is the time since the start, in milliseconds. A capture that --log
writes is for 'show' and, after the description and a line '%%', for 'answer'. Where the
line is a terminal, that has to be raw:

  stty -F /dev/ttyS1 raw -echo
  mctpctl serve --device device.toml < /dev/ttyS1 > /dev/ttyS1

With --faults 7,10,20,50 the line loses 10 percent of the frames, both of those that come
and of those that go out. Of the others 20 percent come twice, and each comes up to 50
milliseconds late. The seed, here 7, chooses which: the same seed and frames have the same
faults. A delayed frame holds up those after it. Bytes that are no frame are lost.

With --firmware FILE the device takes firmware updates (DSP0267) of the endpoint --agent,
for its one component, 10:1:0. Pieces of 256 bytes are stored in FILE.part; an image that
is applied is FILE.new, and FILE from its activation on. Killed at any moment, FILE is
the old one or the new one, whole. Reads of the line have to end where nothing comes:

  stty -F /dev/ttyS1 raw -echo min 0 time 1
  mctpctl serve --device device.toml --firmware fan.bin < /dev/ttyS1 > /dev/ttyS1

Exit status:
  0  the input has ended; that a terminal hung up is said on standard error
  1  the description was refused: one line on standard error says why
  2  the command line was refused
  3  a file, a read, a write or the clock failed, or there was no memory";

/// What `ask` reads and writes.
pub const ASK: &str = "\
A command is sent to the device in frames of DSP0253, again after each timeout, until an
answer to it has come or all tries have had their time. The line is a terminal that no
other program holds. It has to be raw, and its reads have to end where nothing comes:

  stty -F /dev/ttyS1 raw -echo min 0 time 1
  mctpctl ask --line /dev/ttyS1 --own 8 --device 9 gettid

COMMAND is gettid, settid N, getversion TYPE, gettypes, getcommands TYPE, sensor ID,
statesensors ID, setnum ID SIZE VALUE, getnum ID, setstate ID S .., getstate ID, pdrinfo
or getpdr RECORD TRANSFER first|next COUNT. A --file has one on each line, and comments
that begin with '#'.

Output: the answers, as 'show --decode' writes them, or with --hex their bytes. They are
on standard output; where no --line is named, this is the line, and they are on standard
error:

    response 0 GetTID tid 1

An instance ID is used again after twice the keeping time, so 32 commands go out in that
time at most. Where the device keeps its answers for 8 instance IDs, as its description may
say, --window 8 makes that 16 commands in --lifetime, 250 milliseconds, which the tries then
share. A device that keeps more answers, or longer, may take a new request for a copy of an
earlier one, not perform it, and send the earlier answer.

When requests were opened is kept in a file for each line, --own and --device, in
$XDG_STATE_HOME/mctpctl or ~/.local/state/mctpctl, or in --state FILE, so that the next run
goes on at once. Where nothing is known of earlier requests, as after a start of the system
or with --no-state, twice the keeping time passes first, and what comes then is dropped: an
answer to an earlier request is none to a new one. Where the device keeps its answers for
less time, --keep 1000 --timeout 300 makes that two seconds.

Exit status, the greatest where there are several commands:
  0  the answer has the completion code SUCCESS
  1  it has another one
  2  the command line was refused, or a line of the file
  3  no answer came in the tries, or the line ended; or a file, a read, a write or the
     clock failed, or there was no memory. One line on standard error says which; none
     where nobody reads the output";

/// What `walk` reads and writes.
pub const WALK: &str = "\
The device is asked what a management controller asks that has found it: its endpoint ID,
UUID and message types, by control messages; its terminus ID and PLDM types, the versions
and commands of each type, how many records its repository has, each record, and the
reading, value or states of each sensor and effecter that a record describes. Nothing is
set. The line, the endpoint IDs, the times and the state are those of 'ask'. As an instance
ID is used again after twice the keeping time, 32 commands are asked in that time at most;
--window allows more:

  stty -F /dev/ttyS1 raw -echo min 0 time 0
  mctpctl walk --line /dev/ttyS1 --own 8 --device 9

Output: the answers as they come, with what was asked, and at the end a table. What was
refused is passed over, with what depends on it. The first command without an answer is
the last one:

    response 0 GetTID tid 1
    response 9 GetSensorReading sensor 1 uint16 reading 4200 normal previous normal ..

  sensor 1    Fan        4200 rpm  normal
  effecter 1  Fan speed  40 %      enabled-noUpdatePending

A --records file gets the bytes of the records, one after another.

Exit status, the greatest of all commands:
  0  the answer has the completion code SUCCESS
  1  it has another one
  2  the command line was refused
  3  no answer came in the tries, or the line ended; or a file, a read, a write or the
     clock failed, or there was no memory. One line on standard error says which; none
     where nobody reads the output";

/// What `assign` sends and prints.
pub const ASSIGN: &str = "\
The device at the other end of the line is given the endpoint ID of --device by Set Endpoint
ID (DSP0236). The request goes to the null endpoint ID, so it reaches a device that has none
yet, and one that has another. It is sent again up to --tries times; a copy changes nothing.
The line, the endpoint IDs, the times and the state are those of 'ask':

  mctpctl assign --line /dev/ttyS1 --own 8 --device 9

Output: the answer, with whether the endpoint ID was taken and which one the device has.

Exit status:
  0  the device has the endpoint ID
  1  it was not taken, or the completion code is not SUCCESS
  2  the command line was refused
  3  no answer came in the tries, or the line ended; or a file, a read, a write or the
     clock failed, or there was no memory. One line on standard error says which; none
     where nobody reads the output";

/// What `update` does and prints.
pub const UPDATE: &str = "\
A firmware update (DSP0267): the device is asked what it is and which firmware it has; the
table of components is passed; then the device asks for each image, piece by piece, and
verifies, applies and activates it. The file is a firmware update package, of which the
images for this device are taken, or one image. The line, the endpoint IDs, the times and
the state are those of 'ask':

  stty -F /dev/ttyS1 raw -echo min 0 time 1
  mctpctl update --line /dev/ttyS1 --own 8 --device 9 fan.bin

Output: each state as it comes; on a terminal, also how much of an image the device has
asked for, at which speed, and how long the rest takes:

  device identifier 0002 4e6565646c658f618074000000000009
  component 10:1:0 active version \"1.0\"
  update requested
  component 10:1:0 65536 bytes
  component 10:1:0 transferred
  component 10:1:0 verified
  component 10:1:0 applied
  activated

Where each piece that the device takes is one that was given to that very request, as on a
line where no packet comes too late, it verifies the image, whatever is lost or repeated.
An update of the same endpoint ID that it has under way, as after this program was killed,
is cancelled first. With --dry-run the first lines alone are printed, and whether the file
is for the device.

Exit status:
  0  the device has said that it activates the images; with --dry-run, the file is for it
  1  the device refused, gave up or was silent, or the file is not for it
  2  the command line was refused, or the file is no package and no image
  3  no answer came in the tries, or the line ended; or a file, a read, a write or the
     clock failed, or there was no memory. One line on standard error says which";

/// What `watch` reads and writes.
pub const WATCH: &str = "\
The device is asked for its records as by 'walk', with nothing printed. Then, in each
period, each sensor and effecter that a record describes is asked for its reading, value
or states. Nothing is set. The line, the endpoint IDs, the times and the state are those of
'ask'. A row without an answer says so, and the next one is asked. A period lasts longer
where 32 commands in twice the keeping time are not enough; --window allows more:

  stty -F /dev/ttyS1 raw -echo min 0 time 0
  mctpctl watch --line /dev/ttyS1 --own 8 --device 9 --every 500 --log readings.csv

Output: for each period its moment, in milliseconds since the start, the table of 'walk',
and a blank line. A row whose value or state is another than in the period before begins
with '*', and has a colour on a terminal, unless NO_COLOR is set:

  12500 ms
  * sensor 1    Fan        4260 rpm  normal
    effecter 1  Fan speed  40 %      enabled-noUpdatePending

A --log file gets a line for each row: the moment, what it is of, its name and its value:

  12500,sensor 1,\"Fan\",\"4260 rpm\"

Exit status, the greatest of all commands:
  0  the answer has the completion code SUCCESS
  1  it has another one
  2  the command line was refused
  3  no answer came in the tries, or the line ended; or a file, a read, a write or the
     clock failed, or there was no memory. One line on standard error says which; none
     where nobody reads the output";
