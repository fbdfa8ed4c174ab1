//! What the program tells the thread that shows the progress of a script.
use crate::screen::{Screen, served_by_all};
use escrow_free::Audience;
use escrow_stats::Watcher;
use sqlite::Alter;
use std::alloc::Global;
use std::sync::{Arc, Condvar, Mutex, MutexGuard, Wait};
use std::thread;
use std::thread::{JoinHandle, Threads};
use std::time::{Clock, Duration};

/// What the program tells a screen about the script that it serves: the watchers of its databases,
/// and what the program does.
#[derive(Drop)]
pub struct Monitor<V> {
    told: Mutex<Told<V>>,
    bell: Condvar,
}

/// What the screen is told.
#[derive(Drop)]
pub(crate) struct Told<V> {
    /// A watcher for each database, in their order. There are none before the first phase.
    pub(crate) watchers: Vec<V>,
    /// What the program does.
    pub(crate) activity: Activity,
    /// Whether something is drawn on the screen.
    pub(crate) is_drawn: bool,
    // How many phases have begun.
    begun: u64,
}

/// What the program is doing with a script.
#[derive(Clone, Copy, PartialEq, Eq)]
pub(crate) enum Activity {
    /// It reads lines, or writes replies.
    Between,
    /// The sessions of a phase are served.
    Phase(Phase),
    /// The script has ended.
    Over,
}

/// A phase whose sessions are served.
#[derive(Clone, Copy, PartialEq, Eq)]
pub(crate) struct Phase {
    /// Its number, from 1.
    pub(crate) number: u64,
    /// How many statements it has.
    pub(crate) statements: usize,
    /// How many statements all databases had served when it began.
    pub(crate) served_before: u64,
}

impl<V> Monitor<V> {
    /// Returns a monitor that tells nothing yet.
    fn new(alloc: Global) -> Self {
        Monitor {
            told: Mutex::new(Told {
                watchers: Vec::new(alloc),
                activity: Activity::Between,
                is_drawn: false,
                begun: 0,
            }),
            bell: Condvar::new(),
        }
    }

    /// Returns what the screen is told now. Waits for whoever holds it.
    pub(crate) fn told<P: Wait>(&self, rt: &P) -> MutexGuard<'_, Told<V>> {
        self.told.lock(rt)
    }

    /// Waits while lines are read and replies are written.
    pub(crate) fn wait_between<'a, P: Wait>(
        &self,
        rt: &P,
        told: MutexGuard<'a, Told<V>>,
    ) -> MutexGuard<'a, Told<V>> {
        self.bell
            .wait_while(rt, told, |told| told.activity == Activity::Between)
    }

    /// Waits while the program does the same, but no longer than this.
    pub(crate) fn wait_at<'a, P: Wait + Clock>(
        &self,
        rt: &P,
        told: MutexGuard<'a, Told<V>>,
        activity: Activity,
        most: Duration,
    ) -> MutexGuard<'a, Told<V>> {
        self.bell
            .wait_timeout_while(rt, told, most, |told| told.activity == activity)
            .0
    }

    /// Notes that nothing is drawn on the screen any more.
    pub(crate) fn clear(&self, told: &mut Told<V>) {
        told.is_drawn = false;
        self.bell.notify_one();
    }

    /// Notes that no phase is being served, and waits until nothing is drawn on the screen.
    fn leave<P: Wait>(&self, rt: &P, activity: Activity) {
        let mut told = self.told(rt);
        told.activity = activity;
        self.bell.notify_one();
        drop(self.bell.wait_while(rt, told, |told| told.is_drawn));
    }
}

impl<S: Alter> Monitor<Watcher<S>> {
    /// Notes that the next phase is being served, with this many statements.
    fn begin<P: Wait>(&self, rt: &P, statements: usize) {
        let mut told = self.told(rt);
        let number = told.begun.wrapping_add(1);
        let served_before = served_by_all(&mut told.watchers);
        told.begun = number;
        told.activity = Activity::Phase(Phase {
            number,
            statements,
            served_before,
        });
        self.bell.notify_one();
    }
}

/// A thread that shows the progress of a script, and the monitor that tells it.
#[derive(Drop)]
pub(crate) struct Shower<'a, V, T> {
    rt: &'a T,
    monitor: Arc<Monitor<V>, Global>,
    thread: JoinHandle<()>,
}

impl<V: Drop, T: Threads + Wait> Shower<'_, V, T> {
    /// Tells the thread that the script has ended, and waits for the thread to end.
    pub(crate) fn stop(self) {
        let Shower {
            rt,
            monitor,
            thread,
        } = self;
        monitor.leave(rt, Activity::Over);
        thread.join(rt);
    }
}

impl<S: Alter + Drop, T: Threads + Wait> Audience<Watcher<S>> for Shower<'_, Watcher<S>, T> {
    fn watch(&mut self, _alloc: Global, watchers: Vec<Watcher<S>>) {
        self.monitor.told(self.rt).watchers = watchers;
    }

    fn begin(&mut self, statements: usize) {
        self.monitor.begin(self.rt, statements);
    }

    fn end(&mut self) {
        self.monitor.leave(self.rt, Activity::Between);
    }
}

/// Starts a thread that shows the progress of a script on a screen. Starts none if there is no
/// screen, or if memory or the thread is refused.
pub(crate) fn start<
    'a,
    S: Alter + Drop + Send + 'static,
    T: Threads + Wait,
    X: Screen + Send + Drop + 'static,
>(rt: &'a T, alloc: Global, screen: Option<X>) -> Option<Shower<'a, Watcher<S>, T>> {
    let screen = screen?;
    let monitor = Arc::new(alloc, Monitor::new(alloc)).ok()?;
    let theirs = Arc::try_clone(&monitor).ok()?;
    let thread = thread::spawn(rt, move || screen.show(alloc, &*theirs)).ok()?;
    Some(Shower {
        rt,
        monitor,
        thread,
    })
}
