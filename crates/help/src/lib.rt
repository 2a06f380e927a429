// The page that help tells: the calls, what each is for, and what it answers.

#![tactic(auto)]

ghost use Rattle.std.specs.Prelude.{[], ◌∷◌};
ghost use Rattle.text.specs.Adding.{Adds};
ghost use Rattle.help.specs.Page.{page};

use text::Text;

// Puts the page.
pub fn put(text: &mut Text)
    ensures { Adds text.old (page ∷ []) text.new }
{
    text.put(
        b"power-on uart        power was given; or power-on spi     ok [STATE]
pulse                a low pulse on IRQ_IN was given      ok [STATE]
idn                  IDN, to be sent                      sent BYTES [STATE]
select PP BYTES      ProtocolSelect, its parameters       sent BYTES [STATE]
send BYTES           SendRecv, its data                   sent BYTES [STATE]
idle BYTES           Idle, its 14 data bytes              sent BYTES [STATE]
rdreg RR             RdReg, the register's address        sent BYTES [STATE]
wrreg BYTES          WrReg, its data                      sent BYTES [STATE]
inventory N          an inventory, of 1 or 16 slots       sent BYTES [STATE]
echo                 Echo, to be sent                     sent BYTES [STATE]
reset                a reset over SPI                     sent BYTES [STATE]
poll                 a poll over SPI                      sent BYTES [STATE]
read N               a read of N bytes over SPI           sent BYTES [STATE]
calibrate P BYTES    a calibration, its 10 bytes          sent BYTES [STATE]
next                 the calibration's next command       sent BYTES [STATE]
feed BYTES           bytes of the awaited reply           as below
times BYTES          the times of an Idle's 14 bytes      ticks .. ms ..
wait BYTES           how long that Idle waits             after MS ms, endless
band RR              the guard band of a reference        band LL HH
command BYTES        the call that sends these bytes      idn, select PP ..
flags BB             what the flags of a poll say         read yes send no
received BYTES       what a poll or a read brought back   bytes BYTES
stake BYTES          an inventory's answer, taken apart   as below
usb-idn              IDN, as the board's message          bytes BYTES
usb-firmware         GetFirmwareVersion, as a message     bytes BYTES
usb-inventory FF     inventory of 16 slots, its flags     bytes BYTES
usb-detect LL HH     GoToTagDetectingState, its DacData   bytes BYTES
usb-awake            IsWakeUp, as a message               bytes BYTES
usb-calibrate        CalibrateTagDetecting, as a message  bytes BYTES
usb BYTES            the call that writes this message    usb-idn, usb-awake ..
usb-answer CC BYTES  an answer to the command CC          bytes BYTES
usb-error CODE       the answer with the MCU's CODE       bytes CODE 00
usb-reply CC BYTES   the answer to CC, taken apart        as below
out N                the lent output's length from now    ok [STATE]
room N               the reply room's length from now     ok [STATE]
help                 this page

feed answers    more used N [STATE]
                good used N piece BYTES [STATE], or room BYTES, or no bytes
                woken timeout used N piece EE [STATE], or tag, irq-in, spi-ss
                refused N used N [STATE], or refused 7 CODE used N [STATE]
and at the end of a calibration
                reference RR commands N used N piece EE [STATE]
                refused 8, 9 or 10 commands N used N piece EE [STATE]
                refused 12 CODE commands N used N [STATE]
calibrate       P is the prescaler; the bytes are the enter, wake-up and leave
                pairs, WuPeriod, OscStart, DacStart and SwingCnt
stake           flags FF dsfid DD uid UU UU UU UU UU UU UU UU crc LL HH
usb-reply       name BYTES, firmware VV VV VV, inventory K BYTES, detecting,
                irq-out low or high, calibrated LL HH; or error CODE
CC              a command's code: 01, BC, A1, A3, A2, A4, in the order above
STATE           power-up, ready, selected P, waiting idn (or select, send,
                idle, rdreg, wrreg, echo), lost; and ', calibrating'
A call may answer 'refused N', and a line that is no call answers
'error: line L, column C: ..'. BYTES are pairs of hex digits, N is decimal.
docs/CALLS.md has every call, every answer, and what to do about each refusal.",
    );
}
